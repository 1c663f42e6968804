//! Laws of pages, receivers and streams. Calling one does nothing at run time; it gives the caller's proof the law.

ghost use Rattle.ttx_page.specs.ErrorRule.{AreOutside, MemoriesAreFormer, WrongTextIsReceived};
ghost use Rattle.ttx_page.specs.Examples.{Examples};
ghost use Rattle.ttx_page.specs.Laws.{PagesKeepTheirRules, PagesHaveSixLinks, PagesHaveLinks, MemoriesKeepTheirRules, BlankIsFormer, PageIsShown};
ghost use Rattle.ttx_page.specs.Laws.{ErasedHoldsBlank, BlankIsTested, EachListRuns, RunsGoOn, ScriptedRuns, ChoicesAreChoices, ExactIsReceived};
ghost use Rattle.ttx_page.specs.Laws.{CyclesRepeat, EachSlotTurns, JoinedIsOldThenNew, StreamsMove, OwnersAreUnique, OwnersComeFirst};
ghost use Rattle.ttx_page.specs.Laws.{OwnersAreNear, OwnersDontFall, RunsAreUnique, RunsRise, NoHeaderIsNone, SteadySendsItsOwn};

/// The fields of every `Page` are in their ranges.
pub fn pages_keep_their_rules()
    ensures { PagesKeepTheirRules }
{}

/// Every `Page` has six links, some of which may lead nowhere.
pub fn pages_have_six_links()
    ensures { PagesHaveSixLinks }
{}

/// Every `Page` has six links that lead to targets or nowhere, and two CRC bytes.
pub fn pages_have_links()
    ensures { PagesHaveLinks }
{}

/// The fields of every `PageMemory` are in their ranges.
pub fn memories_keep_their_rules()
    ensures { MemoriesKeepTheirRules }
{}

/// A blank memory is a former memory for both classes of receivers.
pub fn blank_is_former()
    ensures { BlankIsFormer }
{}

/// Every `PageMemory` is a former memory for receivers of class any, and every fresh one for receivers that surely clear.
pub fn memories_are_former()
    ensures { MemoriesAreFormer }
{}

/// The memory of a page that was received whole shows that page.
pub fn page_is_shown()
    ensures { PageIsShown }
{}

/// A cleared memory holds the blank items of a page.
pub fn erased_holds_blank()
    ensures { ErasedHoldsBlank }
{}

/// The test for blank items is true exactly for blank items.
pub fn blank_is_tested()
    ensures { BlankIsTested }
{}

/// Over every list of slots a receiver has a run.
pub fn each_list_runs()
    ensures { EachListRuns }
{}

/// A run can be extended by one slot.
pub fn runs_go_on()
    ensures { RunsGoOn }
{}

/// A receiver that takes its choices from a script makes a run.
pub fn scripted_runs()
    ensures { ScriptedRuns }
{}

/// Where a receiver has no choice, its answer makes no difference.
pub fn choices_are_choices()
    ensures { ChoicesAreChoices }
{}

/// Reception without errors is within the error rule.
pub fn exact_is_received()
    ensures { ExactIsReceived }
{}

/// Which wrong bits the error rule permits: anything in clocks and after the addresses of packets 8/30, one wrong bit in each
/// other byte that is not text, and wrong text in fewer slots than the repeat count.
pub fn wrong_text_is_received()
    ensures { WrongTextIsReceived }
{
    ttx_packet::laws::empty_slots_are_empty();
}

/// Two wrong bits in a byte, and wrong text in both of two transmissions, are outside the error rule.
pub fn examples_are_outside()
    ensures { AreOutside }
{}

/// The stream of a cycle repeats with the length of the cycle.
pub fn cycles_repeat()
    ensures { CyclesRepeat }
{}

/// Each slot of a repeating stream has its place in the first period.
pub fn each_slot_turns()
    ensures { EachSlotTurns }
{}

/// A joined stream is the old cycle below slot 0 and the new cycle from slot 0 on.
pub fn joined_is_old_then_new()
    ensures { JoinedIsOldThenNew }
{}

/// If a stream is the same a number of slots on, then so are its owners, transmissions and runs.
pub fn streams_move()
    ensures { StreamsMove }
{}

/// A slot has one owner.
pub fn owners_are_unique()
    ensures { OwnersAreUnique }
{}

/// An owner is not later than its slot.
pub fn owners_come_first()
    ensures { OwnersComeFirst }
{}

/// In a stream with a period, an owner is less than one period before its slot.
pub fn owners_are_near()
    ensures { OwnersAreNear }
{}

/// A later slot does not have an earlier owner.
pub fn owners_dont_fall()
    ensures { OwnersDontFall }
{}

/// There is only one run from a slot.
pub fn runs_are_unique()
    ensures { RunsAreUnique }
{}

/// Of two runs of an item, the one that starts earlier ends earlier.
pub fn runs_rise()
    ensures { RunsRise }
{}

/// No slot is a header of the page if and only if the stream has no header of it.
pub fn no_header_is_none()
    ensures { NoHeaderIsNone }
{}

/// A page is steady if and only if the stream sends the page's own contents.
pub fn steady_sends_its_own()
    ensures { SteadySendsItsOwn }
{}

/// The worked examples of the definitions hold.
pub fn examples_hold()
    ensures { Examples }
{}
