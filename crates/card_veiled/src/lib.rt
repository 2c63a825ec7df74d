// A card without its secrets' bytes, for what is shown to people: their lengths stay.
#![tactic(auto)]

ghost use Rattle.std.specs.Prelude.{◌≡◌};
ghost use Rattle.theorem_secrecy.specs.View.{every};
ghost use Rattle.theorem_secrecy.specs.Veil.{veil_secret, veil_secrets, veil};

use model::{Card, Secret};

fn veiled_secret(s: Secret) -> Secret
    ensures { result ≡ veil_secret (every 0) s }
{
    Secret {
        bytes: [0u8; 64],
        len: s.len,
    }
}

fn veiled_secrets(s: [Secret; 5]) -> [Secret; 5]
    ensures { result ≡ veil_secrets every 0 s }
{
    [
        veiled_secret(s[0]),
        veiled_secret(s[1]),
        veiled_secret(s[2]),
        veiled_secret(s[3]),
        veiled_secret(s[4]),
    ]
}

pub fn veiled(c: Card) -> Card
    ensures { result ≡ veil every c }
{
    let mut l = c.loading;
    let secrets = l.secrets;
    let veils = veiled_secrets(secrets);
    l.secrets = veils;
    let mut card = c;
    card.loading = l;
    card
}
