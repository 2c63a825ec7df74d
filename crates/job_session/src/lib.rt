// The session of a job, in lent room: INSTALL '0C' and SELECT of the instance, and behind them the writer's records.
#![tactic(auto)]

ghost use Rattle.std.specs.Prelude.{◌≡◌, ◌++◌, ◌≤◌, min, length};
ghost use Rattle.lists.specs.Over.{overwrite};
ghost use Rattle.theorem_cutting.specs.Job.{install_record, select_record};
ghost use Rattle.job_session.specs.Laid.{session_writing, Lays, job_writing, LaysJob};

use model::{CHIP_SIZE, RECORD_SIZE, Written};

// How many bytes INSTALL and SELECT take.
const FRONT_SIZE: usize = 520;

// The installation of 1TIC.ICA, and its selection.
fn install_record() -> [u8; 260]
    ensures { (result ≡ install_record) × (260 ≡ length result) }
{
    let mut record = [0u8; 260];
    memory::lay(
        &mut record,
        b"\x01\x0C\x00\x21\x081TIC.PKG\x081TIC.MOD\x081TIC.ICA\x01\x00\x02\xC9\x00\x00",
    );
    record
}

fn select_record() -> [u8; 260]
    ensures { (result ≡ select_record) × (260 ≡ length result) }
{
    let mut record = [0u8; 260];
    memory::lay(&mut record, b"\x03\x04\x00\x081TIC.ICA");
    record
}

fn lay_front(room: &mut [u8])
    requires { 520 ≤ length room.old }
    ensures { room.new ≡ overwrite room.old 0 (install_record ++ select_record) }
{
    let install = install_record();
    let select = select_record();
    memory::put_bytes(room, 0, &install);
    memory::put_bytes(room, RECORD_SIZE, &select);
}

// Where the writer's records begin: nowhere in the room where it has none behind the first two.
fn front_in(size: usize) -> usize
    ensures { result ≡ min 520 size }
{
    if size < FRONT_SIZE {
        return size;
    }
    FRONT_SIZE
}

// The session of this chip's job, laid from the room's front; the writer's number, and the count of its records.
pub fn lay_session(chip: &[u8], order: &[u8], room: &mut [u8]) -> Written
    ensures { Lays (session_writing chip.now order.now (length room.old))
        room.old result room.new × (result.count ≤ 45) }
{
    let front = front_in(room.len());
    let written = order_writer::write(chip, order, &mut room[front..]);
    if written.number != 0 {
        return written;
    }
    lay_front(room);
    written
}

// The number of a refusal or 0, and how many bytes a job's session takes with the chip record before it.
#[derive(Clone, Copy)]
pub struct Job {
    pub number: u8,
    pub size: usize,
}

// The chip record and the session of this chip's job, laid from the room's front: what `cut` prints.
pub fn lay_job(chip: &[u8], order: &[u8], room: &mut [u8]) -> Job
    ensures { LaysJob chip.now (job_writing chip.now order.now
        (length room.old)) room.old result room.new
        × (result.size ≤ length room.new) }
{
    let front = memory::least(CHIP_SIZE, room.len());
    let session = lay_session(chip, order, &mut room[front..]);
    if session.number != 0 {
        return Job {
            number: session.number,
            size: 0,
        };
    }
    memory::put_bytes(room, 0, chip);
    Job {
        number: 0,
        size: CHIP_SIZE + FRONT_SIZE + session.count * RECORD_SIZE,
    }
}
