// The four jobs, a module each, and the test of rest that jobs 1 and 3 share.
pub mod apply_change;
pub mod apply_rollback;
pub mod at_rest;
pub mod commit_change;
pub mod commit_rollback;
