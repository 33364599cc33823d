// Samples 1, 2, 11 and 12: the bytes that create and append leave in an image, a clean mark that is none, and the listing of a fresh image.
use crate::{print, runs};
use std::io;
use steps::Log;

// The metadata that create stores at E = 64, S = 2.
pub fn metadata(rt: &impl Print) -> io::Result<()> {
    let mut image = [0u8; 212];
    Log::create(&mut image, 64, 2);
    print::bytes(rt, "1 metadata", &image[0..84])
}

// The record that the first append stores: in slot 0, behind the metadata and the extent's header.
pub fn record(rt: &impl Print) -> io::Result<()> {
    let mut image = [0u8; 212];
    let log = runs::running(&mut image);
    log.append(&mut image, b"AB");
    print::bytes(rt, "2 record", &image[89..100])
}

// The clean mark stands at byte 18.
pub fn clean_two(rt: &impl Print) -> io::Result<()> {
    let mut image = [0u8; 212];
    let made = Log::create(&mut image, 64, 2);
    image[18] = 2;
    let found = Log::open(&image);
    print::two(
        rt,
        "11 create, then open of clean 2",
        made.number,
        u32::from(found.number),
    )
}

// What loglist prints of a fresh image.
pub fn listed(rt: &impl Print) -> io::Result<()> {
    let mut image = [0u8; 212];
    let made = Log::create(&mut image, 64, 2);
    print::two(
        rt,
        "12 create, head; then its listing",
        made.number,
        made.log.0.head.0,
    )?;
    loglist_core::print_image(&mut io::writer(rt), &image)
}
