//! Searches and masks against the class of each byte, looked at one by one.
use super::dialects::{commas, commented, dialect};
use byte_classes::{
    Class, Dialect, DialectFault, Masks, class_of, equal_to, lanes_at, masks, next_special,
};

/// Two fields, a line end and 58 other bytes.
const BLOCK: [u8; 64] = *b"a,\"b\"\nxxxxxxxxxxxxxxxxxxxxxxxxxxxxxxxxxxxxxxxxxxxxxxxxxxxxxxxxxx";

/// Where the classes stand in `BLOCK`.
const FOUND: Masks = Masks {
    line_end: 32,
    delim: 2,
    quote: 20,
    escape: 0,
    outside: 34,
    inside: 20,
};

#[test]
fn a_block_has_its_masks_and_runs(rt: HostRuntime) {
    let dialect = commas(&rt);
    assert!(rt; masks(&dialect, &BLOCK) == FOUND);
    assert!(rt; next_special(&dialect, &BLOCK, 0, false) == 1);
    assert!(rt; next_special(&dialect, &BLOCK, 2, false) == 5);
    assert!(rt; next_special(&dialect, &BLOCK, 0, true) == 2);
    assert!(rt; next_special(&dialect, &BLOCK, 5, true) == 64);
}

/// Whether a byte of a class ends a run.
fn ends_run(class: Class, quoted: bool) -> bool {
    match class {
        Class::Quote | Class::Escape => quoted,
        Class::Lf | Class::Cr | Class::Delim => !quoted,
        Class::Comment | Class::Other => false,
    }
}

/// Whether the searches end at a place, outside quotes and inside, where its byte ends a run, else behind the text.
fn finds_at(dialect: &Dialect, text: &[u8], at: usize, byte: u8) -> bool {
    for quoted in [false, true] {
        let ends = ends_run(class_of(dialect, byte), quoted);
        let place = if ends { at } else { text.len() };
        if next_special(dialect, text, 0, quoted) != place {
            return false;
        }
    }
    true
}

/// Whether a byte is found at each place of texts of 0 to 200 bytes that end no run else.
fn is_found_at_each_place(dialect: &Dialect, byte: u8) -> bool {
    for len in 0..201 {
        let mut text = [b'x'; 200];
        if !finds_at(dialect, &text[..len], len, b'x') {
            return false;
        }
        for at in 0..len {
            text[at] = byte;
            if !finds_at(dialect, &text[..len], at, byte) {
                return false;
            }
            text[at] = b'x';
        }
    }
    true
}

/// Whether each mask of a block has the bits of the bytes of its class.
fn has_masks(dialect: &Dialect, block: &[u8; 64]) -> bool {
    let mut wanted = Masks {
        line_end: 0,
        delim: 0,
        quote: 0,
        escape: 0,
        outside: 0,
        inside: 0,
    };
    for (at, byte) in block.iter().enumerate() {
        let bit = 1u64.wrapping_shl(at as u32);
        match class_of(dialect, *byte) {
            Class::Lf | Class::Cr => wanted.line_end |= bit,
            Class::Delim => wanted.delim |= bit,
            Class::Quote => wanted.quote |= bit,
            Class::Escape => wanted.escape |= bit,
            Class::Comment | Class::Other => {}
        }
    }
    wanted.outside = wanted.line_end | wanted.delim;
    wanted.inside = wanted.quote | wanted.escape;
    masks(dialect, block) == wanted
}

/// Whether the masks tell a byte at each place of a block.
fn is_told_at_each_place(dialect: &Dialect, byte: u8) -> bool {
    for at in 0..64 {
        let mut block = [b'x'; 64];
        block[at] = byte;
        if !has_masks(dialect, &block) {
            return false;
        }
    }
    true
}

#[test]
fn each_class_is_found_at_each_place(rt: HostRuntime) {
    let dialect = commented(&rt, dialect(&rt, b';', b'\'', Some(b'\\')));
    for byte in [b'\n', b'\r', b';', b'\'', b'\\', b'#', b'a'] {
        assert!(rt; is_found_at_each_place(&dialect, byte), "{byte}");
        assert!(rt; is_told_at_each_place(&dialect, byte), "{byte}");
    }
}

#[test]
fn a_byte_at_fault_makes_no_dialect(rt: HostRuntime) {
    let same = Dialect::new(b',', Some(b','), None).err();
    assert!(rt; same == Some(DialectFault::SameByte));
    let clash = commas(&rt).with_comment(b',').err();
    assert!(rt; clash == Some(DialectFault::CommentClash));
}

#[test]
fn lanes_tell_equal_bytes(rt: HostRuntime) {
    let lanes = lanes_at(b"x0123456789abxdefx", 1);
    assert!(rt; equal_to(lanes, b'x') == 1 << 12 && equal_to(lanes, b'f') == 1 << 15);
}
