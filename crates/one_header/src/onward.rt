// Where a number leads that names no header of its own layer: to a header of the next layer, or to a stop.
ghost use Rattle.std.specs.Prelude.{◌≡◌};
ghost use Rattle.one_header.specs.Onwards.{leads_by};

use rules::{Kind, Stop, Turn};

#[derive(Clone, Copy)]
pub enum Onward<K> {
    Opens(K),
    Stops(Stop),
}

impl<K> From<Onward<K>> for Turn
where
    Kind: From<K>,
{
    ghost from_gives = { λ onward turn. leads_by ⟦<Kind as From<K>>⟧.from_gives onward turn };

    fn from(onward: Onward<K>) -> Turn {
        match onward {
            Onward::Opens(kind) => Turn::Opens(Kind::from(kind)),
            Onward::Stops(stop) => Turn::Stops(stop),
        }
    }
}
