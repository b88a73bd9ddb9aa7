// The first bytes are these, and the others are 0.
pub(crate) fn padded<const N: usize>(first: &[u8]) -> [u8; N] {
    let mut bytes = [0; N];
    for (byte, given) in bytes.iter_mut().zip(first) {
        *byte = *given;
    }
    bytes
}

// The load of a tower: P or S, a limit, N and tray bytes.
pub(crate) fn tower(letter: u8, limit: u8, n: u8, trays: &[u8]) -> [u8; 35] {
    let mut bytes = [0; 35];
    bytes[0] = letter;
    bytes[1] = limit;
    bytes[2] = n;
    bytes[3..].copy_from_slice(&padded::<32>(trays));
    bytes
}

// The load of a ring: a limit, N, K and tray bytes.
pub(crate) fn ring(limit: u8, n: u8, span: u8, trays: &[u8]) -> [u8; 36] {
    let mut bytes = [0; 36];
    bytes[0] = b'R';
    bytes[1] = limit;
    bytes[2] = n;
    bytes[3] = span;
    bytes[4..].copy_from_slice(&padded::<32>(trays));
    bytes
}

// A grant.
pub(crate) fn work(grant: u32) -> [u8; 5] {
    let [a, b, c, d] = grant.to_be_bytes();
    [b'W', a, b, c, d]
}

// The layer that refuses by this number.
fn layer(number: u8) -> u8 {
    match number {
        0..=3 => 1,
        4..=5 => 2,
        6..=11 => 3,
        _ => 4,
    }
}

// A refusal.
pub(crate) fn refused(number: u8, place: u16) -> [u8; 5] {
    let [high, low] = place.to_be_bytes();
    [b'E', layer(number), number, high, low]
}

// The search has not ended.
pub(crate) fn working(looks: u32) -> [u8; 5] {
    let [a, b, c, d] = looks.to_be_bytes();
    [b'B', a, b, c, d]
}

// A plan was found.
pub(crate) fn found(length: u8, looks: u32) -> [u8; 6] {
    let [a, b, c, d] = looks.to_be_bytes();
    [b'Y', length, a, b, c, d]
}

// There is no plan.
pub(crate) fn none(looks: u32) -> [u8; 5] {
    let [a, b, c, d] = looks.to_be_bytes();
    [b'N', a, b, c, d]
}

// The plan that was fetched.
pub(crate) fn fetched(turns: &[u8]) -> [u8; 66] {
    let mut bytes = [0; 66];
    bytes[0] = b'T';
    bytes[1] = turns.len().min(64) as u8;
    bytes[2..].copy_from_slice(&padded::<64>(turns));
    bytes
}

// The trays 1 to 32.
pub(crate) const COUNTING: [u8; 32] = [
    1, 2, 3, 4, 5, 6, 7, 8, 9, 10, 11, 12, 13, 14, 15, 16, 17, 18, 19, 20, 21, 22, 23, 24, 25, 26,
    27, 28, 29, 30, 31, 32,
];
