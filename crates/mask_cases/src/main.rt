// Runs the specification's cases (docs/FORMAT.md) of masks and words and prints what each gives: P3 to P7, whole words compressed, and by what a bitmap of 128 slots goes.
#![tactic(auto)]

use format::Ready;

// A mask of up to eight slots, no null: the body's one byte of bits, a node, the trailer.
fn mask_of(slots: u8, bits: u8) -> [u8; 64] {
    let mut pack = [0u8; 64];
    pack[0] = bits;
    // kind 1, rows, no bitmap
    pack[8] = 1;
    pack[16] = slots;
    pack[28..32].fill(255);
    // table start, node count, root rows, mark
    pack[48] = 8;
    pack[52] = 1;
    pack[56] = slots;
    pack[60..].copy_from_slice(b"COLQ");
    pack
}

// Prepares a mask with its list and prints count, length, route and the list, of which 99 stands where nothing was stored. A write that fails is
// passed over, here and below: what is printed is held to stored lines.
fn prepares(rt: &impl Print, name: &str, slots: u8, bits: u8) {
    let mask = mask_of(slots, bits);
    let mut list = [99u32; 6];
    match prepare::prepare(&mask, None, true, &mut list) {
        Ok(Ready { kept, slots, route }) => {
            let _ = print!(rt; "{name}: {kept} of {slots} {route}, list");
            for entry in list {
                let _ = print!(rt; " {entry}");
            }
            let _ = println!(rt; "");
        }
        Err(refused) => {
            let _ = println!(rt; "{name}: refused {}", u64::from(refused.reason));
        }
    }
}

// By what a bitmap of 128 slots goes.
// `stored` is what `by_route` is asked, as docs/FORMAT.md (6) asks it: no value stands beside it.
fn bitmap_goes(rt: &impl Print, name: &str, count: usize, stored: bool) {
    let way = if bitmaps::by_route(128, count, stored) {
        "by the route"
    } else {
        "compress"
    };
    let _ = println!(rt; "{name}: {way}");
}

// What a mask gathers of a value.
fn compresses(rt: &impl Print, name: &str, value: u64, mask: u64) {
    let gathered = bits::compress(value, mask);
    let _ = println!(rt; "{name}: {gathered}");
}

fn main(rt: HostRuntime) {
    prepares(&rt, "P3", 5, 0x0F);
    prepares(&rt, "P4", 6, 0x3E);
    prepares(&rt, "P5", 0, 0x00);
    prepares(&rt, "P6", 3, 0x07);
    compresses(&rt, "P7", 0xB6, 0x5A);
    // The fours of this value are the numbers 15 to 0, so each answer can be read off: FDB97531 and ECA86420 (hex), all, the two ends, none.
    let falling: u64 = 0xFEDC_BA98_7654_3210;
    compresses(&rt, "high fours", falling, 0xF0F0_F0F0_F0F0_F0F0);
    compresses(&rt, "low fours", falling, 0x0F0F_0F0F_0F0F_0F0F);
    compresses(&rt, "all bits", falling, 0xFFFF_FFFF_FFFF_FFFF);
    compresses(&rt, "both ends", falling, 0x8000_0000_0000_0001);
    compresses(&rt, "no bit", falling, 0);
    bitmap_goes(&rt, "126 of 128", 126, false);
    bitmap_goes(&rt, "125 of 128", 125, false);
    bitmap_goes(&rt, "2 of 128, stored", 2, true);
    bitmap_goes(&rt, "3 of 128, stored", 3, true);
    bitmap_goes(&rt, "2 of 128, lazy", 2, false);
}
