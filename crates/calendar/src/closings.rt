// The closings layer: named days taken out of any calendar.
ghost use Rattle.std.specs.Prelude.{◌≡◌, [], ◌≤◌, length};
ghost use Rattle.terms.specs.Answers.{answered};
ghost use Rattle.calendar.specs.Days.{without, named_answer, named_after};
ghost use Rattle.std.proofs.Common.{rules};

use crate::calendars::Calendar;
use arrayvec::ArrayVec;
use std::marker::Model;
use terms::refusals::Refusal;

// A calendar without the days named, of which there are at most 64.
#[derive(Drop)]
pub struct Closings<C> {
    below: C,
    named: ArrayVec<u32, 64>,
    ghost few: { length named.items ≤ 64 },
}

impl<C> Model for Closings<C> {
    ghost use Rattle.calendar.specs.Layers.{Layer};

    ghost Value = { Layer C };

    ghost view = { λ c. record { below = c.below; named = c.named.items; few = c.few } };
}

impl<C: Calendar> Closings<C> {
    // A layer over a calendar, with no day named.
    pub fn over(below: C) -> Closings<C>
        ensures below { result.below ≡ below }
        ensures named { result.named ≡ [] }
    {
        Closings {
            below,
            named: ArrayVec::new(),
        }
    }

    // Names a day. A 65th is refused; one that is named already stays named.
    #[tactic(auto, using(crate::proofs::Searched::has_any))]
    pub fn close(&mut self, day: u32) -> Result<(), Refusal>
        ensures answer { answered result ≡ named_answer day self.old.named }
        ensures named { self.new.named ≡ named_after day self.old.named }
        ensures below { self.new.below ≡ self.old.below }
        ensures few { length self.new.named ≤ 64 }
    {
        if self.named.contains(&day) {
            return Ok(());
        }
        self.named
            .try_push(day)
            .map_err(|_| Refusal::TooManyClosings)
    }
}

impl<C: Calendar> Calendar for Closings<C> {
    ghost business = { λ c. without c.named (C.business c.below) };

    ghost bounded = { Prim.search rules };

    #[tactic(auto, using(crate::proofs::Searched::has_any))]
    fn is_business_day(&self, day: u32) -> bool {
        !self.named.contains(&day) && self.below.is_business_day(day)
    }
}
