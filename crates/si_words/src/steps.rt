//! The kinds of step on the words: what each makes of the view of the seat that steps.
ghost use Rattle.std.specs.Prelude.{◌≡◌, ◌-◌};
ghost use Rattle.si_words.specs.Views.{spent};
ghost use Rattle.si_words.specs.Steps.{Becomes, issued, pulled, published, sighted, looked, learned, counted, asked_closed, closed};
ghost use Rattle.si_words.specs.Steps.{together, without_shard, shard_alone, without_pass, pass_alone, shard_given, next_shard, pass_given, next_pass, without_opener, opener_alone};

use crate::views::View;
use atomic_table::{Join, Play, Split};
use std::marker::{Brand, PhantomData};

/// Names the edit that is issued, since the ticket's rise does not say which it is.
pub(crate) trait Named {
    ghost use Rattle.std.specs.Prelude.{Option};
    ghost use Rattle.si_model.specs.declared.edits.Edit.{Edit};

    ghost edit: { Option Edit };
}

impl Named for Brand {
    ghost use Rattle.std.specs.Prelude.{None};

    ghost edit = { None };
}

pub(crate) struct Issue<N> {
    edit: PhantomData<N>,
}

impl<N: Named> Play<(), View> for Issue<N> {
    ghost then = { λ step me found after. Becomes (issued N.edit me.0) step me found after };
}

pub(crate) struct Pull;

impl Play<(), View> for Pull {
    ghost then = { λ step me found after. Becomes (pulled me.0) step me found after };
}

pub(crate) struct Publish;

impl Play<(), View> for Publish {
    ghost then = { λ step me found after. Becomes (published step.first me.0) step me found after };
}

pub(crate) struct See;

impl Play<(), View> for See {
    ghost then = { λ step me found after. Becomes (sighted me.0) step me found after };
}

/// The watermarks begin at word 2.
pub(crate) struct Look;

impl Play<(), View> for Look {
    ghost then = { λ step me found after. Becomes (looked (step.word - 2) found me.0) step me found after };
}

pub(crate) struct Learn;

impl Play<(), View> for Learn {
    ghost then = { λ step me found after. Becomes (learned found me.0) step me found after };
}

pub(crate) struct CountIssued;

impl Play<(), View> for CountIssued {
    ghost then = { λ step me found after. Becomes (counted found me.0) step me found after };
}

pub(crate) struct AskClosed;

impl Play<(), View> for AskClosed {
    ghost then = { λ step me found after. Becomes (asked_closed found me.0) step me found after };
}

pub(crate) struct Close;

impl Play<(), View> for Close {
    ghost then = { λ step me stored after. after ≡ (closed me.0, me.1) };
}

pub(crate) struct Together;

impl Join<View> for Together {
    ghost both = { together };

    ghost spent = { spent };
}

pub(crate) struct ShardApart;

impl Split<View> for ShardApart {
    ghost left = { without_shard };

    ghost right = { shard_alone };
}

pub(crate) struct PassApart;

impl Split<View> for PassApart {
    ghost left = { without_pass };

    ghost right = { pass_alone };
}

/// The opener's parting with the next shard's seat.
pub(crate) struct NextShard;

impl Split<View> for NextShard {
    ghost left = { shard_given };

    ghost right = { next_shard };
}

/// The opener's parting with the next pass.
pub(crate) struct NextPass;

impl Split<View> for NextPass {
    ghost left = { pass_given };

    ghost right = { next_pass };
}

/// The book's parting with the opener.
pub(crate) struct Opened;

impl Split<View> for Opened {
    ghost left = { without_opener };

    ghost right = { opener_alone };
}
