//! Rows and layers over small tables: what they tell, as tags and widths.

use circuit::{Circuit, total_width};
use folding::Folding;
use layers::{class_layer, width_layer};
use net::NetKey;
use pile::HousePile;
use record::Record;
use row::Row;
use std::alloc::{AllocError, Global};
use std::test::Fail;
use table::Table;

const fn transistor(tag: u16, kind: u8, body: u16, width: u16, pair: u16, side: u8) -> Record {
    Record {
        kind,
        body,
        gate: 20,
        source: 15,
        drain: 16,
        width,
        tag,
        pair,
        side,
    }
}

/// Tag and width of each module that the circuit tells.
// By position, so that `count` and `module` are asked too.
fn told<C: Circuit>(heap: Global, circuit: &C) -> Result<Vec<(u16, u16)>, AllocError> {
    (0..circuit.count())
        .filter_map(|position| circuit.module(position))
        .map(|m| (m.tag, m.width.steps()))
        .collect(heap)
}

fn cell() -> [Record; 5] {
    [
        transistor(1, 0, 0, 10, 0, 0),
        transistor(2, 1, 1, 5, 0, 0),
        transistor(3, 0, 0, 4, 7, 0),
        transistor(4, 0, 0, 4, 7, 1),
        transistor(5, 0, 0, 5, 0, 0),
    ]
}

#[test]
fn folds(rt: HostRuntime) -> Result<(), Fail> {
    let heap = rt.alloc();
    let records = cell();
    let table = Table::new(&records);
    let fours = told(heap, &Folding::new(&table, 4))?;
    assert_eq!(rt;
        &fours[..],
        &[
            (1, 4),
            (1, 3),
            (1, 3),
            (2, 3),
            (2, 2),
            (3, 4),
            (4, 4),
            (5, 3),
            (5, 2),
        ][..]
    );
    Ok(())
}

#[test]
fn fold_limits(rt: HostRuntime) -> Result<(), Fail> {
    let heap = rt.alloc();
    let records = [
        transistor(1, 0, 0, 3, 0, 0),
        transistor(2, 0, 0, 4095, 0, 0),
    ];
    let table = Table::new(&records);
    assert_eq!(rt;
        &told(heap, &Folding::new(table, 0))?[..],
        &[(1, 3), (2, 4095)][..]
    );
    assert_eq!(rt;
        &told(heap, &Folding::new(table, 65535))?[..],
        &[(1, 3), (2, 4095)][..]
    );
    assert_eq!(rt;
        &told(heap, &Folding::new(table, 2048))?[..],
        &[(1, 3), (2, 2048), (2, 2047)][..]
    );
    assert_eq!(rt; Folding::new(table, 1).count(), 4098);
    Ok(())
}

#[test]
fn rails(rt: HostRuntime) -> Result<(), Fail> {
    let records = cell();
    let row = Row::new(Table::new(&records), 2);
    assert_eq!(rt; row.count(), 10);
    let Some(a) = row.module(0) else {
        assert!(rt; false, "instance 0");
        return Ok(());
    };
    let Some(b) = row.module(5) else {
        assert!(rt; false, "instance 1");
        return Ok(());
    };
    assert!(rt; a.source.same(&b.source), "net 15 is one net");
    assert!(rt; !a.drain.same(&b.drain), "net 16 is two");
    Ok(())
}

#[test]
fn row_limits(rt: HostRuntime) {
    let full = [transistor(1, 0, 0, 4095, 0, 0); 16];
    let cell = Table::new(&full);
    assert_eq!(rt; Row::new(cell, 0).count(), 0);
    assert_eq!(rt; Row::new(cell, 16).count(), 256);
    assert_eq!(rt; total_width(&Row::new(cell, 16)), 1048320);
    assert_eq!(rt; Row::new(cell, 17).count(), 0);
    let mut over = [transistor(1, 0, 0, 4095, 0, 0); 17];
    over[16] = transistor(2, 0, 0, 1, 0, 0);
    assert_eq!(rt; Row::new(Table::new(&over), 15).count(), 255);
    assert_eq!(rt; Row::new(Table::new(&over), 16).count(), 0);
}

#[test]
fn house_piles(rt: HostRuntime) -> Result<(), Fail> {
    let heap = rt.alloc();
    let records = cell();
    let table = Table::new(&records);
    let row = Row::new(table, 2);
    let Some(unpaired) = row.module(0) else {
        assert!(rt; false, "unpaired");
        return Ok(());
    };
    let expected = [
        (1, 4),
        (1, 3),
        (1, 3),
        (5, 3),
        (5, 2),
        (1, 4),
        (1, 3),
        (1, 3),
        (5, 3),
        (5, 2),
    ];
    assert_eq!(rt;
        &told(heap, &HousePile::new(&row, 4, unpaired))?[..],
        &expected[..]
    );
    let Some(paired) = row.module(3) else {
        assert!(rt; false, "paired");
        return Ok(());
    };
    assert_eq!(rt;
        &told(heap, &HousePile::new(row, 3, paired))?[..],
        &[
            (3, 2),
            (3, 2),
            (4, 2),
            (4, 2),
            (3, 2),
            (3, 2),
            (4, 2),
            (4, 2),
        ][..]
    );
    let Some(like) = table.module(4) else {
        assert!(rt; false, "like");
        return Ok(());
    };
    let other_order = Row::new(Folding::new(class_layer(&table, like), 4), 2);
    assert_eq!(rt; &told(heap, &other_order)?[..], &expected[..]);
    assert_eq!(rt;
        &told(heap, &width_layer(&other_order, 2, 3))?[..],
        &[
            (1, 3),
            (1, 3),
            (5, 3),
            (5, 2),
            (1, 3),
            (1, 3),
            (5, 3),
            (5, 2),
        ][..]
    );
    Ok(())
}
