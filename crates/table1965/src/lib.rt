// A charge of the 1965 table: the matrix of its coefficients, the formula in doubles, the thousandths, and questions 20 and 21. It takes
// no file. proofs/Within.antt says that the charge lies within a millionth of the exact quotient.
#![tactic(auto)]

pub mod charges;
pub mod matrix;
