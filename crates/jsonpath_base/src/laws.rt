//! Laws of writing, adding, replacing and removing, and of equality. Each function states laws and does nothing.
ghost use Rattle.jsonpath_parser.specs.Equality.{IsEqualityOf};
ghost use Rattle.jsonpath_base.specs.Prelude.{AddedIndexMovesLater, AddedIsThere, AddedLeavesTheRest, AddedNameLeavesSiblings, AmongIsListed, OverwrittenAtOneIsPut, OverwrittenForgets, OverwrittenIsSeen, OverwrittenLeavesTheRest, owned_step, PointerFindsItsPlace, PointerLeadsAsFound, PointerLeadsToWhatIs, PointerReadsBack, PutIsSeenAbove, PutIsThere, PutLeavesTheRest, PutNowhere, RemovedMemberIsGone, SameIsAnEquivalence, StayingKeepsIndexes, WithoutIsSeen, WithoutLeavesTheRest, WithoutNowhere};
ghost use Rattle.jsonpath_base.specs.contracts.step.StepPartialEq.TheImpl as step;

/// Where there was a value, there is what was written, with all its parts. Above the location there is what was there
/// before, with the same write in it.
pub fn put_is_there()
    ensures there { PutIsThere }
    ensures above { PutIsSeenAbove }
{}

/// A write changes no value except those inside its location and those above it.
pub fn put_leaves_the_rest()
    ensures { PutLeavesTheRest }
{}

/// A write where there is no value changes nothing.
pub fn put_nowhere()
    ensures { PutNowhere }
{}

/// What was added is there, with all its parts.
pub fn added_is_there()
    ensures { AddedIsThere }
{}

/// A member that was added leaves all its siblings as they were. An element leaves those before it, and moves those
/// after it by one. What is neither inside nor above the object or the list is as it was.
pub fn added_leaves_the_rest()
    ensures names { AddedNameLeavesSiblings }
    ensures elements { AddedIndexMovesLater }
    ensures rest { AddedLeavesTheRest }
{}

/// A replacement at one location is a write there, on trees with distinct names, such as those of whole values.
pub fn overwritten_at_one_is_put()
    ensures { OverwrittenAtOneIsPut }
{}

/// After a replacement, a location that is not below a replaced one holds what it held before, with the replacements in
/// it. So what is neither inside a replaced location nor above one is as it was.
pub fn overwritten_is_seen()
    ensures seen { OverwrittenIsSeen }
    ensures rest { OverwrittenLeavesTheRest }
{}

/// A replacement forgets what it replaces: two documents that differ only there become the same.
pub fn overwritten_forgets()
    ensures { OverwrittenForgets }
{}

/// The set of the locations of a list has exactly these.
pub fn among_is_listed()
    ensures { AmongIsListed }
{}

/// A location keeps its place if nothing is removed at it or above it, and no element before one that it goes through.
/// Such a location holds what it held before, without what was removed inside it. If nothing was removed inside it, it
/// is as it was.
pub fn removal_leaves_the_rest()
    ensures seen { WithoutIsSeen }
    ensures rest { WithoutLeavesTheRest }
{}

/// There is no value where a member was removed, if down to the first removed member on the path, if there is one, no
/// element that the location goes through is removed or has a removed one before it. That is so if the object that held
/// the member keeps its place.
pub fn removed_member_is_gone()
    ensures gone { RemovedMemberIsGone }
    ensures staying { StayingKeepsIndexes }
{}

/// A removal where there is no value changes nothing, on trees with distinct names, such as those of whole values.
pub fn without_nowhere()
    ensures { WithoutNowhere }
{}

/// On trees with distinct names, such as those of whole values, being the same is an equivalence.
pub fn same_is_an_equivalence()
    ensures { SameIsAnEquivalence }
{}

/// `==` of steps is equality of what they mean: names by their bytes, indexes by their numbers, and no name is an
/// index.
pub fn equal_steps_are_one_step()
    ensures { IsEqualityOf owned_step step.eq-value.it }
{}

/// The JSON Pointer of a location with a value means that location.
pub fn pointer_reads_back()
    ensures { PointerReadsBack }
{}

/// The location that a JSON Pointer means has a value, and `Value::pointer` of `serde_json` finds that value by it.
pub fn pointer_leads_as_found()
    ensures there { PointerLeadsToWhatIs }
    ensures found { PointerLeadsAsFound }
{}

/// For the JSON Pointer of a location with a value, `Value::pointer` of `serde_json` finds that value.
pub fn pointer_finds_its_place()
    ensures { PointerFindsItsPlace }
{}
