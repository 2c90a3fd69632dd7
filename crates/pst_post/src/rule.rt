// The mailbox rule, and what each kind of atomic step tells its caller.
use crate::view::View;
use atomic_table::{Join, Play, Split, TableRule};
use std::marker::{Brand, PhantomData};

/// The rule that every step keeps. The table is told the number of lanes.
pub struct MailboxRule;

impl TableRule<u8, View, u32> for MailboxRule {
    ghost use Rattle.pst_post.specs.Rule.{Rule};
    ghost use Rattle.pst_post.specs.Views.{first_view};

    ghost holds = { λ _. Rule };

    ghost first = { first_view };
}

/// The compare and exchange of a post.
pub struct Posting;

impl Play<u8, View> for Posting {
    ghost use Rattle.pst_post.specs.Plays.{Posts};

    ghost then = { Posts };
}

/// The load of a collect.
pub struct Collecting;

impl Play<u8, View> for Collecting {
    ghost use Rattle.pst_post.specs.Plays.{Collects};

    ghost then = { Collects };
}

/// The load of a fetch.
pub struct Fetching;

impl Play<u8, View> for Fetching {
    ghost use Rattle.pst_post.specs.Plays.{Fetches};

    ghost then = { Fetches };
}

/// The swap of a hand back.
pub struct HandingBack;

impl Play<u8, View> for HandingBack {
    ghost use Rattle.pst_post.specs.Plays.{HandsBack};

    ghost then = { HandsBack };
}

/// The lane that a call deals. Each call picks it in its proof.
pub trait DealtLane {
    ghost use Rattle.std.specs.Prelude.{ℕ};

    ghost lane: { ℕ };
}

impl DealtLane for Brand {
    ghost lane = { 0 };
}

/// The split of a deal.
pub struct Dealing<L> {
    lane: PhantomData<L>,
}

impl<L: DealtLane> Split<View> for Dealing<L> {
    ghost use Rattle.pst_post.specs.Plays.{dealing};
    ghost use Rattle.pst_post.specs.Views.{blank_lane};
    ghost use Rattle.pst_post.specs.declared.view.View.TheVariants.{Lane};

    ghost left = { dealing L.lane };

    ghost right = { λ _. Lane (blank_lane L.lane) };
}

/// The join of a gather.
pub struct Gathering;

impl Join<View> for Gathering {
    ghost use Rattle.pst_post.specs.Plays.{gathering};
    ghost use Rattle.pst_post.specs.declared.view.View.TheVariants.{Spent};

    ghost both = { gathering };

    ghost spent = { Spent };
}
