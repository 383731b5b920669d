//! Fault lines, byte for byte.

use refusal::{Fault, Layer, Refusal};

// The answer of writing the line over fourteen dots, and the buffer after that.
fn written(layer: Layer, refusal: Refusal) -> (Result<usize, Refusal>, [u8; 14]) {
    let mut buf = *b"..............";
    let answer = Fault { layer, refusal }.write_line(&mut buf);
    (answer, buf)
}

#[test]
fn fault_lines(rt: HostRuntime) {
    let cut = written(Layer::Deck, Refusal::CutShort { length: 0 });
    assert!(rt; cut == (Ok(8), *b"F 1 3 0\n......"));
    let short = written(Layer::Sheet, Refusal::TooShort { needed: 120456 });
    assert!(rt; short == (Ok(14), *b"F 3 31 120456\n"));
    let many = written(Layer::Partition, Refusal::TooManyModules { count: 1000000 });
    assert!(rt; many == (Err(Refusal::TooShort { needed: 15 }), *b".............."));
}
