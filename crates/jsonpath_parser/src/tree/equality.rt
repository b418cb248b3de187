//! What `==` of query trees decides.
ghost use Rattle.jsonpath_parser.specs.Prelude.{argument_view, atom_view, call_view, comparable_view, comparison_view, filter_view, IsEqualityOf, literal_view, operator_view, query_view, segment_view, segments_view, selector_view, singular_view, step_view, steps_view, test_view};
ghost use Rattle.jsonpath_parser.specs.Equality.{items_equal};
ghost use Rattle.jsonpath_parser.specs.contracts.tree.model.JpQueryPartialEq.TheImpl as jp_query;
ghost use Rattle.jsonpath_parser.specs.contracts.tree.model.SegmentPartialEq.TheImpl as segment;
ghost use Rattle.jsonpath_parser.specs.contracts.tree.model.SelectorPartialEq.TheImpl as selector;
ghost use Rattle.jsonpath_parser.specs.contracts.tree.model.FilterPartialEq.TheImpl as filter;
ghost use Rattle.jsonpath_parser.specs.contracts.tree.model.FilterAtomPartialEq.TheImpl as filter_atom;
ghost use Rattle.jsonpath_parser.specs.contracts.tree.model.ComparisonPartialEq.TheImpl as comparison;
ghost use Rattle.jsonpath_parser.specs.contracts.tree.model.ComparablePartialEq.TheImpl as comparable;
ghost use Rattle.jsonpath_parser.specs.contracts.tree.model.SingularQueryPartialEq.TheImpl as singular_query;
ghost use Rattle.jsonpath_parser.specs.contracts.tree.model.SingularQuerySegmentPartialEq.TheImpl as singular_query_segment;
ghost use Rattle.jsonpath_parser.specs.contracts.tree.model.TestPartialEq.TheImpl as test;
ghost use Rattle.jsonpath_parser.specs.contracts.tree.model.TestFunctionPartialEq.TheImpl as test_function;
ghost use Rattle.jsonpath_parser.specs.contracts.tree.model.FnArgPartialEq.TheImpl as fn_arg;
ghost use Rattle.jsonpath_parser.specs.contracts.tree.model.LiteralPartialEq.TheImpl as literal;
ghost use Rattle.jsonpath_parser.specs.contracts.tree.model.operator.OperatorPartialEq.TheImpl as operator;

/// States laws and does nothing: for each type of a query's parts, for `Operator`, and for the lists that `segments` and
/// `singular_query_segments` return, `==` is equality of what the values stand for.
pub fn equal_parts_are_one_tree()
    ensures jp_query { IsEqualityOf query_view jp_query.eq-value.it }
    ensures segment { IsEqualityOf segment_view segment.eq-value.it }
    ensures selector { IsEqualityOf selector_view selector.eq-value.it }
    ensures filter { IsEqualityOf filter_view filter.eq-value.it }
    ensures filter_atom { IsEqualityOf atom_view filter_atom.eq-value.it }
    ensures comparison { IsEqualityOf comparison_view comparison.eq-value.it }
    ensures comparable { IsEqualityOf comparable_view comparable.eq-value.it }
    ensures singular_query { IsEqualityOf singular_view singular_query.eq-value.it }
    ensures singular_query_segment { IsEqualityOf step_view singular_query_segment.eq-value.it }
    ensures test { IsEqualityOf test_view test.eq-value.it }
    ensures test_function { IsEqualityOf call_view test_function.eq-value.it }
    ensures fn_arg { IsEqualityOf argument_view fn_arg.eq-value.it }
    ensures literal { IsEqualityOf literal_view literal.eq-value.it }
    ensures operator { IsEqualityOf operator_view operator.eq-value.it }
    ensures segments { IsEqualityOf segments_view (items_equal segment.eq-value.it) }
    ensures singular_query_segments { IsEqualityOf steps_view (items_equal singular_query_segment.eq-value.it) }
{}
