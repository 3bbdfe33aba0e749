//! Losses with laws: what rows cost at a value, the least value at which they cost least, and the
//! balances at which a value is optimal. Fits are proved over any [`Loss`]; [`Squares`] and [`Median`]
//! are two.
#![tactic(auto)]

mod entry;
mod laws;
mod loss;
mod median;
mod number;
mod quantile;
mod squares;

pub use laws::{
    best_squares_are_max_min, least_minimiser_is_one, least_minimisers_cost_least,
    losses_mean_the_table, medians_are_least_at_a_row, medians_balance_the_weights,
    problems_have_the_laws, squares_are_least_at_the_weighted_mean,
    squares_balance_the_weighted_sum,
};
pub use loss::Loss;
pub use median::Median;
pub use quantile::{Factors, QuantilePool};
pub use squares::{Squares, SquaresPool};
