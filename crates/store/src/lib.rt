// Fragment stores: octet strings kept by row and number, behind one interface.
#![tactic(auto)]

mod any;
mod cells;
mod fault;
mod grid;
mod making;
mod place;
mod places;
mod pool;
mod store;

pub use any::AnyStore;
pub use fault::StoreFault;
pub use grid::Grid;
pub use pool::Pool;
pub use store::FragmentStore;
