// What a page means: the ledger of all that it has taken, its reading, and the law over any list of calls. Each function's contract is a theorem.
#![tactic(auto)]

ghost use Rattle.ledger.specs.Answering.{kinds_of, CallsLeadToOneLedger};
ghost use Rattle.ledger.specs.Laws.{OrderMakesNoDifferenceAlways, OrderMakesNoDifference};
ghost use Rattle.ledger.specs.Sending.{NothingLostAlways};
ghost use Rattle.ledger.specs.Theorems.{PathOrderIsTotal, PathsAgreeAlways, ReadingsGoByPaths};
ghost use Rattle.ledger.specs.Walk.{WalkStandsAlways, NewStandsAlways, WalkOnPages};
ghost use Rattle.ledger.specs.Worked.{WorkedPages};

use entries::Entry;
use stamps::Stamp;

// The order of paths is a strict total order, from the laws of the stamps' order alone.
pub fn path_order_is_total() -> bool
    ensures { PathOrderIsTotal }
{
    true
}

// An entry's path as a relation and as a bounded function is the same.
pub fn paths_agree() -> bool
    ensures { PathsAgreeAlways }
{
    true
}

// A reading lists exactly the standing entries, each once, ascending by path.
pub fn readings_go_by_paths() -> bool
    ensures { ReadingsGoByPaths }
{
    true
}

// The order of arrival makes no difference, for all kinds whose stamps are totally ordered.
pub fn order_makes_no_difference() -> bool
    ensures { OrderMakesNoDifferenceAlways }
{
    true
}

// The same at any implementation of the traits.
pub fn order_makes_no_difference_at<S: Stamp, E: Entry>() -> bool
    ensures { OrderMakesNoDifference (kinds_of S.WordForm.form S.Stamp.kind E.WordForm.form E.Entry.kind) }
{
    true
}

// Nothing is lost on the way out: each message made here is marked unsent or has been sent exactly once.
pub fn nothing_is_lost() -> bool
    ensures { NothingLostAlways }
{
    true
}

// A list of calls leads to one ledger.
pub fn calls_lead_to_one_ledger() -> bool
    ensures { CallsLeadToOneLedger }
{
    true
}

// The worked pages, computed.
pub fn worked_pages_stand() -> bool
    ensures { WorkedPages }
{
    true
}

// The walk by children, siblings and parents finds the next standing entry.
pub fn walk_stands() -> bool
    ensures { WalkStandsAlways }
{
    true
}

// A new entry stands where it was wanted.
pub fn new_stands() -> bool
    ensures { NewStandsAlways }
{
    true
}

// The walk, on any page that calls have made.
pub fn walk_on_pages() -> bool
    ensures { WalkOnPages }
{
    true
}
