//! Examples of the laws of stored files.
ghost use Rattle.promise_examples.specs.Stored.{BatchOddHasCause, FetchSaysSo, GivenBack};
ghost use Rattle.promise_examples.specs.Stored.{GivenBackByTheThird, NextFetchSaysSo};
ghost use Rattle.promise_examples.specs.Stored.{NextOddHasCause, NextRenewedOddHasCause};
ghost use Rattle.promise_examples.specs.Stored.{OddHasCause, RenewedOddHasCause, StoredIsVeiled};

use pot_promises::{fetch_laws, file_laws, odd_laws, veil_laws};

/// A fetch gives the file, in its session and in the next but one (`gives_back` and
/// `gives_back_later` of `file_laws`).
pub fn given_back()
    ensures here { GivenBack }
    ensures later { GivenBackByTheThird }
{
    file_laws();
}

/// A fetch says nothing that it may not say (`fetch_laws`).
pub fn fetch_says_so()
    ensures here { FetchSaysSo }
    ensures later { NextFetchSaysSo }
{
    fetch_laws();
}

/// A fetch that is odd has its cause (`odd_laws`).
pub fn odd_has_cause()
    ensures here { OddHasCause }
    ensures later { NextOddHasCause }
{
    odd_laws();
}

/// So has one that found the split of a line of its batch, or that of a renewal (`odd_laws`).
pub fn renewed_odd_has_cause()
    ensures batch { BatchOddHasCause }
    ensures here { RenewedOddHasCause }
    ensures later { NextRenewedOddHasCause }
{
    odd_laws();
}

/// Who has one of two blocks has that of another file too (`veil_laws`).
pub fn stored_is_veiled()
    ensures { StoredIsVeiled }
{
    veil_laws();
}
