// What a sweep knows on its way, so that it meets only positions between which something waits.
ghost use Rattle.std.specs.Prelude.{◌≡◌, [], ◌∷◌, ◌+◌, ◌<◌};
ghost use Rattle.targets.specs.Ways.{places_in};
ghost use Rattle.sweep.specs.Way.{AllBelow, Joined};

use targets::Places;

#[derive(Clone, Copy)]
pub struct Way {
    // How many positions were taken up.
    pub taken: u32,
    // Ahead nothing waits from here on.
    pub end: u32,
    // What waits behind stands from this position on,
    pub from: u32,
    // and before this one.
    pub to: u32,
}

// One position waits besides, behind the one that is met next or ahead.
fn with_one(way: Way, at: u32, t: u32) -> Way
    requires { t < 65536 }
    ensures { (result.taken ≡ way.taken) × Joined at (t ∷ []) way result }
{
    if t < at {
        return Way {
            from: way.from.min(t),
            to: at,
            ..way
        };
    }
    Way {
        end: way.end.max(t + 1),
        ..way
    }
}

// One more was taken up, and these wait besides.
pub fn after(way: Way, at: u32, noted: Places) -> Way
    requires { (way.taken < 65536) × AllBelow 65536 (places_in noted) }
    ensures { (result.taken ≡ way.taken + 1) × Joined at (places_in noted) way result }
{
    let more = Way {
        taken: way.taken + 1,
        ..way
    };
    match noted {
        Places::Nothing => more,
        Places::First(s) => with_one(more, at, s),
        Places::Both(s, t) => with_one(with_one(more, at, s), at, t),
    }
}
