//! The rule of a ring, and what each step on its words tells.
ghost use Rattle.nbw_ring.specs.Rule.{Kept, first_view};
ghost use Rattle.nbw_ring.specs.Steps.{tells_begin, tells_put, tells_end, tells_first_load, tells_word_load};
ghost use Rattle.nbw_ring.specs.Steps.{tells_last_load, tells_settle_load, lent_view, joined_view};
ghost use Rattle.nbw_ring.specs.declared.view.View.TheVariants.{Spent};

use crate::view::{Shape, View};
use atomic_table::{Join, Play, Split, TableRule};

/// What holds between any two steps.
pub struct RingRule;

impl TableRule<(), View, Shape> for RingRule {
    ghost holds = { Kept };

    ghost first = { first_view };
}

/// 1: a write begins.
pub struct Begin;

impl Play<(), View> for Begin {
    ghost then = { tells_begin };
}

/// 2: a word is put.
pub struct Put;

impl Play<(), View> for Put {
    ghost then = { tells_put };
}

/// 3: a write ends.
pub struct End;

impl Play<(), View> for End {
    ghost then = { tells_end };
}

/// 4: an attempt begins.
pub struct FirstLoad;

impl Play<(), View> for FirstLoad {
    ghost then = { tells_first_load };
}

/// 5: a word is loaded.
pub struct WordLoad;

impl Play<(), View> for WordLoad {
    ghost then = { tells_word_load };
}

/// 6: an attempt ends.
pub struct LastLoad;

impl Play<(), View> for LastLoad {
    ghost then = { tells_last_load };
}

/// The counter is loaded once a reader was joined.
pub struct SettleLoad;

impl Play<(), View> for SettleLoad {
    ghost then = { tells_settle_load };
}

/// A new reader comes.
pub struct Lend;

impl Split<View> for Lend {
    ghost left = { λ v. v };

    ghost right = { lent_view };
}

/// A reader is joined in the writer.
pub struct Settle;

impl Join<View> for Settle {
    ghost both = { joined_view };

    ghost spent = { Spent };
}
