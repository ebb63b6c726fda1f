// The probe of the volume recognition sequence.
#![tactic(auto)]

ghost use Rattle.std.specs.Prelude.{◌≡◌};
ghost use Rattle.probes.specs.Probes.{probed};
ghost use Rattle.probes.specs.Inner.Steps.{step_of};

use descriptors::recognition::{Structure, structure_of};
use disc::images::{held_from, sector_at};
use disc::places::Sector;

// What the sectors looked at so far tell.
#[derive(Clone, Copy)]
pub enum Seen {
    // The answer is known.
    Over(bool),
    // More sectors are looked at: whether a BEA01 and an NSR were among those so far.
    On { began: bool, named: bool },
}

// What is known after one more sector.
fn step(s: Structure, began: bool, named: bool) -> Seen
    ensures { result ≡ step_of s began named }
{
    match s {
        Structure::Beginning => Seen::On { began: true, named },
        Structure::Nsr => Seen::On { began, named: true },
        Structure::Terminating => Seen::Over(began & named),
        Structure::Other => Seen::On { began, named },
        Structure::Unknown => Seen::Over(false),
    }
}

// Whether the image has a volume recognition sequence, in at most 8 sectors from 16 on.
pub fn probe(image: &[u8]) -> bool
    ensures { result ≡ probed image.now }
{
    let mut began = false;
    let mut named = false;
    for s in 16..24 {
        if held_from(image, Sector(s)) == 0 {
            return false;
        }
        match step(structure_of(sector_at(image, Sector(s))), began, named) {
            Seen::Over(answer) => return answer,
            Seen::On { began: b, named: n } => {
                began = b;
                named = n;
            }
        }
    }
    false
}
