// The limits of files, each in one place. Those of the model stand in service_model.

/// The most bytes of a name.
pub const MAX_NAME: usize = 64;

/// The most named tables.
pub const MAX_TABLES: usize = 1_000;

/// The most entries of a named table.
pub const MAX_ENTRIES: usize = 1_001;

/// The greatest entry of a table, in units of stock.
pub const MAX_EXCESS: u64 = 1_000_000_000;

/// The greatest holding cost of a unit of stock, in currency units.
pub const MAX_UNIT: u64 = 1_000_000;

/// The most units that a customer takes of a supplier's for one of its own.
pub const MAX_QUANTITY: u64 = 1_000;

/// The greatest number behind `normal:`.
pub const MAX_FACTOR: u64 = 1_000_000_000;
