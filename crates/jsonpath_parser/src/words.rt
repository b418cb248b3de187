//! The words of query texts (RFC 9535, 2.1.1, 2.3.1, 2.3.3 and 2.3.5.1): blanks, names, whole numbers, strings and number
//! literals, each read at the front of a text, how names are quoted, and how deep brackets nest.
pub mod depth;
pub mod int;
pub mod number;
pub mod parse_error;
pub mod quoting;
pub mod string;
pub mod text;
