//! The gaps between the numbers that are used, in a map from the first number of each to its last.

ghost use Rattle.std.specs.Prelude.{◌≡◌, ◌<◌, ◌^◌, true, is_some, IfSome, IsSome, OnOk, OnErr};
ghost use Rattle.std.specs.BTreeMap.{get};
ghost use Rattle.std.specs.Ordering.{nat_cmp};
ghost use Rattle.vg_call_numbers.specs.Numbers.{is_in_gap};
ghost use Rattle.vg_call_numbers.specs.GapsWithin.{AreApart, AreBelow, IsFilled, IsGapOf, IsOpened, IsShortened, IsSplit};

use std::alloc::AllocError;
use std::collections::BTreeMap;

/// The gap in which a number lies, by its first and last number.
pub(crate) fn gap_of(gaps: &BTreeMap<u64, u64>, number: u64) -> Option<(u64, u64)>
    requires { AreApart gaps.now }
    ensures there { is_some result ≡ is_in_gap number gaps.now.entries }
    ensures gap { IfSome result (IsGapOf gaps.now number) }
{
    let (first, last) = gaps.range(..=number).next_back()?;
    if number <= *last {
        Some((*first, *last))
    } else {
        None
    }
}

/// Makes a gap of the numbers between these two, if there are any.
pub(crate) fn open(gaps: &mut BTreeMap<u64, u64>, top: u64, number: u64) -> Result<(), AllocError>
    requires above { top < number }
    requires apart { AreApart gaps.old }
    requires below { AreBelow gaps.old top }
    ensures ok { OnOk result (IsOpened gaps.old top number gaps.new) }
    ensures err { OnErr result (gaps.new.entries ≡ gaps.old.entries) }
{
    if top + 1 < number {
        gaps.insert(top + 1, number - 1)?;
    }
    Ok(())
}

/// Takes a number out of the gap in which it lies.
pub(crate) fn fill(gaps: &mut BTreeMap<u64, u64>, number: u64) -> Result<(), AllocError>
    requires limit { number < 2 ^ 63 }
    requires apart { AreApart gaps.old }
    requires inside { is_in_gap number gaps.old.entries ≡ true }
    ensures ok { OnOk result (IsFilled gaps.old number gaps.new) }
    ensures err { OnErr result (gaps.new.entries ≡ gaps.old.entries) }
{
    let (first, last) = gap_of(gaps, number).unwrap();
    split(gaps, number, last)?;
    shorten(gaps, first, number);
    Ok(())
}

/// Makes a gap of the numbers above this one up to the last, if there are any.
fn split(gaps: &mut BTreeMap<u64, u64>, number: u64, last: u64) -> Result<(), AllocError>
    requires { number < 2 ^ 63 }
    ensures ok { OnOk result (IsSplit gaps.old number last gaps.new) }
    ensures err { OnErr result (gaps.new.entries ≡ gaps.old.entries) }
{
    if number < last {
        gaps.insert(number + 1, last)?;
    }
    Ok(())
}

/// Ends a gap before this number, or takes it away where that is its first.
fn shorten(gaps: &mut BTreeMap<u64, u64>, first: u64, number: u64)
    requires { IsSome (get nat_cmp gaps.old first) }
    ensures { IsShortened gaps.old first number gaps.new }
{
    if first < number {
        let _ = gaps.insert(first, number - 1);
    } else {
        gaps.remove(&first);
    }
}
