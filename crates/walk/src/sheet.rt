use search::HIGHEST_LIMIT;

/// The places of a sheet: as many as the longest plan has turns.
pub const SHEET_PLACES: usize = HIGHEST_LIMIT as usize;

/// Places for a plan: the numbers of its turns in their order, and 0 after the last.
pub type Sheet = [u8; SHEET_PLACES];
