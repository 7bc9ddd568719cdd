// The rows of a cost table: three columns, depths, batches and seconds, cleaned; `cost_order` puts them in order.
#![tactic(auto)]

pub mod inner;
