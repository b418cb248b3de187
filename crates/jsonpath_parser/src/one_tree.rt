//! The law that no text spells two trees (RFC 9535, 2.1 to 2.5).
ghost use Rattle.jsonpath_parser.specs.Prelude.{IsUnambiguous, NoTextDerivesTwoTrees, Spells, SpellsBasic, SpellsCall, SpellsChild, SpellsComparable, SpellsComparison, SpellsConjunction, SpellsLiteral, SpellsLogical, SpellsRelative, SpellsSegment, SpellsSegments, SpellsSelector, SpellsSingular, SpellsSliceParts, SpellsSteps, SpellsTest};

/// States a law and does nothing: no text derives two trees, whatever the limits of depth.
pub fn no_text_derives_two_trees()
    ensures { NoTextDerivesTwoTrees }
{}

/// States laws and does nothing: for each grammar function, no text spells two trees of the kind that it reads. Whether
/// the trees are well-typed, and whether their number literals have values, makes no difference.
pub fn no_text_spells_two_trees()
    ensures jp_query { IsUnambiguous Spells }
    ensures rel_query { IsUnambiguous SpellsRelative }
    ensures segments { IsUnambiguous SpellsSegments }
    ensures child_segment { IsUnambiguous SpellsChild }
    ensures segment { IsUnambiguous SpellsSegment }
    ensures selector { IsUnambiguous SpellsSelector }
    ensures slice_selector { IsUnambiguous SpellsSliceParts }
    ensures singular_query { IsUnambiguous SpellsSingular }
    ensures singular_query_segments { IsUnambiguous SpellsSteps }
    ensures logical_expr { IsUnambiguous SpellsLogical }
    ensures logical_expr_and { IsUnambiguous SpellsConjunction }
    ensures filter_atom { IsUnambiguous SpellsBasic }
    ensures comp_expr { IsUnambiguous SpellsComparison }
    ensures comparable { IsUnambiguous SpellsComparable }
    ensures literal { IsUnambiguous SpellsLiteral }
    ensures test { IsUnambiguous SpellsTest }
    ensures function_expr { IsUnambiguous SpellsCall }
{}
