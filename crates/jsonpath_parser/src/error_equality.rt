//! What `==` of errors decides.
ghost use Rattle.jsonpath_parser.specs.Prelude.{error_view, IsEqualityOf};
ghost use Rattle.jsonpath_parser.specs.contracts.errors.JsonPathErrorPartialEq.TheImpl as error;

/// States a law and does nothing: `==` of errors is equality of what they hold.
pub fn equal_errors_hold_the_same()
    ensures { IsEqualityOf error_view error.eq-value.it }
{}
