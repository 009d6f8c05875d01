//! Values over a store that counts.
use crate::limited_store::CountingStore;
use decimal_unsigned::decimal::UnsignedOver;
use fixed_decimal::Signed;

/// A type of values over a store that counts its accesses.
pub trait Counts: Drop {
    type Store: CountingStore;

    /// Returns the store.
    fn counted(&self) -> &Self::Store;
}

impl<S: CountingStore> Counts for UnsignedOver<S> {
    type Store = S;

    fn counted(&self) -> &S {
        self.store()
    }
}

impl<S: CountingStore> Counts for Signed<UnsignedOver<S>> {
    type Store = S;

    fn counted(&self) -> &S {
        self.absolute.store()
    }
}
