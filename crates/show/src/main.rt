// The program `show [--tell] [FILE]`: what `replay` reads, and at its end the card in words, for people. They are made
// of the card with its secrets veiled, so that no byte of these is at hand.
#![tactic(auto)]

mod facts;
mod files;
mod text;

use facts::write_facts;
use files::write_table;
use io_edge::{Arguments, Failure, Label, Page, Source, Status, Voice};
use io_playing::Ending;
use text::Text;

fn show(source: &mut Source, page: Page) -> Result<Status, Failure> {
    let mut area = io_playing::clear_area();
    let outcome = io_playing::play(source, None, &mut area);
    let ending = outcome.ending?;
    if let Ending::Played(_) = ending {
        let card = card_veiled::veiled(outcome.card);
        let mut text = Text::new(page);
        write_facts(&mut text, &card, outcome.events);
        write_table(&mut text, &card, &area);
        text.finish()?;
    }
    Ok(Status::from(ending))
}

fn main(rt: HostRuntime) {
    let voice = Voice {
        err: rt.stderr(),
        label: b"show: ",
    };
    let page = Page {
        out: rt.stdout(),
        voice: voice.labelled(b"show: standard output"),
    };
    let mut arguments = Arguments::new(&rt, voice);
    let listener = io_edge::listener(&rt, arguments.take_option(b"--tell"));
    let mut label = Label::new();
    let ended = match arguments.open_last(rt.stdin(), &mut label) {
        Ok(mut source) => show(&mut source, page),
        Err(failure) => Err(failure),
    };
    io_edge::tell(listener, ended);
}
