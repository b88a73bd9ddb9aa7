use crate::commands::{fetched, found, none, refused, ring, tower, work, working};
use crate::desk::check;
use std::test::*;

// A short grant is one of 10,000 looks.
#[test]
fn short_grants_of_towers(rt: HostRuntime) -> Result<(), Fail> {
    check(
        &rt,
        &[
            (&tower(b'P', 64, 9, &[1, 3, 2, 5, 4, 7, 6, 9, 8]), b"A"),
            (b"G", &found(9, 1275)),
            (b"F", &fetched(&[2, 4, 6, 8, 9, 8, 6, 4, 2])),
            (
                &tower(b'P', 11, 11, &[1, 3, 2, 5, 4, 7, 6, 9, 8, 11, 10]),
                b"A",
            ),
            (b"G", &[0x42, 0x00, 0x00, 0x27, 0x10]),
            (b"G", &found(11, 17_686)),
            (b"F", &fetched(&[2, 4, 6, 8, 10, 11, 10, 8, 6, 4, 2])),
            (&tower(b'S', 64, 5, &[129, 130, 131, 132, 133]), b"A"),
            (b"G", &found(10, 4341)),
            (b"F", &fetched(&[4, 5, 4, 5, 4, 5, 4, 5, 4, 5])),
            (&tower(b'S', 64, 6, &[129, 130, 131, 132, 133, 134]), b"A"),
            (b"G", &[0x42, 0x00, 0x00, 0x27, 0x10]),
            (&work(6226), &working(16_226)),
            (b"G", &found(12, 16_227)),
            (b"F", &fetched(&[1, 3, 5, 2, 6, 2, 5, 3, 1, 4, 6, 4])),
        ],
    )
}

#[test]
fn short_grants_of_rings(rt: HostRuntime) -> Result<(), Fail> {
    check(
        &rt,
        &[
            (&ring(64, 6, 2, &[6, 5, 4, 3, 2, 1]), b"A"),
            (b"G", &found(7, 7456)),
            (b"F", &fetched(&[1, 3, 5, 6, 1, 5, 6])),
            (&ring(6, 6, 2, &[6, 5, 4, 3, 2, 1]), b"A"),
            (b"G", &none(6268)),
            (b"F", &refused(17, 75)),
            (&ring(64, 8, 2, &[6, 1, 4, 5, 3, 7, 2, 8]), b"A"),
            (b"G", &working(10_000)),
            (&work(294), &working(10_294)),
            (&work(1), &found(7, 10_295)),
            (b"F", &fetched(&[4, 3, 7, 8, 1, 7, 6])),
        ],
    )
}

// The least and the greatest grant, where no turns bring the ring home.
#[test]
fn accepted_grants(rt: HostRuntime) -> Result<(), Fail> {
    check(
        &rt,
        &[
            (&ring(64, 4, 4, &[1, 3, 4, 2]), b"A"),
            (&work(1), &[0x42, 0, 0, 0, 1]),
            (&work(1_000_000), &[0x42, 0x00, 0x0F, 0x42, 0x41]),
            (&work(0), &refused(15, 47)),
            (&work(1_000_001), &refused(15, 52)),
            (&work(u32::MAX), &refused(15, 57)),
            (&work(256), &[0x42, 0x00, 0x0F, 0x43, 0x41]),
            (b"D", b"A"),
            (b"D", &refused(18, 67)),
        ],
    )
}
