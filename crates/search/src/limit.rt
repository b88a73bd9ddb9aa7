/// No plan of more turns is searched for.
pub const HIGHEST_LIMIT: u8 = 64;
