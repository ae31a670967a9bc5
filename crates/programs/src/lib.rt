// The programs: what their arguments ask for, a run or a text, and the status with which they end. Each stands in a crate of its own.
#![tactic(auto)]

pub use compose_program::scullpouch_program_compose;
pub use confirm_program::scullpouch_program_confirm;
pub use decompose_program::scullpouch_program_decompose;
pub use deliver_program::scullpouch_program_deliver;
pub use gateway_program::scullpouch_program_gateway;
pub use query_program::scullpouch_program_query;
pub use reconcile_program::scullpouch_program_reconcile;
pub use terms_program::scullpouch_program_terms;
