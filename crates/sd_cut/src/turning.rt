//! What a read or a write makes of an element that was cut: its mark, and what is left of it.
ghost use Rattle.std.specs.Prelude.{◌≡◌};
ghost use Rattle.sd_cut.specs.Turning as turning;
ghost use Rattle.sd_cut.specs.Turning.{sees, kept_left, gathered_from, gathered_left, written_left};

use crate::elements::{CutElement, ElementMark};
use sd_num::{Resolution, Width, identity, store};

/// How an element is marked, and what is left of it.
#[derive(Clone, Copy)]
pub struct ElementLeft {
    pub mark: ElementMark,
    pub value: i64,
}

/// A number for each resolution.
fn number_of(resolution: Resolution) -> u8
    ensures { result ≡ turning.number_of resolution }
{
    match resolution {
        Resolution::Sum => 0,
        Resolution::Product => 1,
        Resolution::Min => 2,
        Resolution::Max => 3,
        Resolution::And => 4,
        Resolution::Or => 5,
        Resolution::Xor => 6,
        Resolution::Last => 7,
    }
}

/// Whether two resolutions are one.
fn are_one(by: Resolution, other: Resolution) -> bool
    ensures { result ≡ turning.are_one by other }
{
    number_of(by) == number_of(other)
}

/// What work sees of an element of which this is left.
pub(crate) fn seen(width: Width, cut: CutElement, left: i64) -> i64
    ensures { result ≡ sees width cut left }
{
    match cut.mark {
        ElementMark::Untouched => cut.opening,
        ElementMark::Kept | ElementMark::Replaced => left,
        ElementMark::Gathered(by) => store(width, Some(by), cut.opening, left),
    }
}

/// An element that is read, or that work may read or replace.
pub(crate) fn kept(width: Width, cut: CutElement, left: i64) -> ElementLeft
    ensures { result ≡ kept_left width cut left }
{
    ElementLeft {
        mark: ElementMark::Kept,
        value: seen(width, cut, left),
    }
}

/// The mark of an element that is replaced.
fn replaced_mark(mark: ElementMark) -> ElementMark
    ensures { result ≡ turning.replaced_mark mark }
{
    match mark {
        ElementMark::Kept => ElementMark::Kept,
        ElementMark::Untouched | ElementMark::Replaced | ElementMark::Gathered(_) => {
            ElementMark::Replaced
        }
    }
}

/// An element with which values are resolved by a resolution that has this identity.
fn gathered_by(
    by: Resolution,
    identity: i64,
    width: Width,
    cut: CutElement,
    left: i64,
) -> ElementLeft
    ensures { result ≡ gathered_from by identity width cut left }
{
    match cut.mark {
        ElementMark::Untouched => ElementLeft {
            mark: ElementMark::Gathered(by),
            value: identity,
        },
        ElementMark::Kept | ElementMark::Replaced => ElementLeft {
            mark: cut.mark,
            value: left,
        },
        ElementMark::Gathered(other) => {
            if are_one(by, other) {
                ElementLeft {
                    mark: cut.mark,
                    value: left,
                }
            } else {
                kept(width, cut, left)
            }
        }
    }
}

/// An element with which values are resolved; without an identity it is kept.
pub(crate) fn gathered(by: Resolution, width: Width, cut: CutElement, left: i64) -> ElementLeft
    ensures { result ≡ gathered_left by width cut left }
{
    match identity(by, width) {
        Some(identity) => gathered_by(by, identity, width, cut, left),
        None => kept(width, cut, left),
    }
}

/// An element to which a value is written. A resolution without an identity replaces it.
pub(crate) fn written(
    by: Option<Resolution>,
    value: i64,
    width: Width,
    cut: CutElement,
    left: i64,
) -> ElementLeft
    ensures { result ≡ written_left by value width cut left }
{
    let before = match by {
        None => None,
        Some(by) => match identity(by, width) {
            Some(identity) => Some(gathered_by(by, identity, width, cut, left)),
            None => None,
        },
    };
    match before {
        Some(before) => ElementLeft {
            mark: before.mark,
            value: store(width, by, before.value, value),
        },
        None => ElementLeft {
            mark: replaced_mark(cut.mark),
            value: store(width, by, left, value),
        },
    }
}
