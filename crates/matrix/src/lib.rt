// The services: reduction, single step, Popov form and determinant of matrices of polynomials, on buffers that the caller lends.
#![tactic(auto)]

pub mod determinant;
pub mod popov_form;
pub mod reduction;
pub mod single_step;
