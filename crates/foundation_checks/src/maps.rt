// Maps, alone and in rows of a table.
ghost use Rattle.std.specs.Prelude.{◌%◌, ◌==◌};
ghost use Rattle.std.proofs.lemmas.Bool.Decides.{Decides-eqb};
ghost use Rattle.texts.specs.declared.stock.Text.{Text};
ghost use Rattle.vec_map.specs.KeysLemmas.{image_equivalence};

use map_table::rows::Row;
use map_table::table::{MapTable, stride_fits};
use std::test::Fail;
use texts::stock::Text;
use vec_map::entry::{Entry, Sameness};
use vec_map::fault::MapFault;
use vec_map::map::VecMap;

// Texts that are the same where their numbers end in the same digit.
struct ByDigit;

impl Sameness<Text> for ByDigit {
    ghost alike = { λ _ a b. (a.number % 10 == b.number % 10) };

    ghost equivalence = { λ _. image_equivalence (λ (t : Text). t.number % 10) (λ x y. (x == y)) Decides-eqb };

    fn same_key(&self, a: &Text, b: &Text) -> bool {
        a.number % 10 == b.number % 10
    }
}

const A: Text = Text { number: 1 };

const A_AGAIN: Text = Text { number: 11 };

const B: Text = Text { number: 2 };

// A call as a value, so that a test lists its calls beside what each comes to.
#[derive(Clone, Copy)]
enum Step {
    Add,
    Insert(usize, Text, u8),
    Remove(usize, Text),
    Dedup(usize),
    Claim(usize),
    Copy(usize, usize),
}

fn play(table: &mut MapTable<u8>, step: Step) -> Result<(), MapFault> {
    match step {
        Step::Add => table.add_row(),
        Step::Insert(row, key, value) => table.insert(row, key, value),
        Step::Remove(row, key) => table.remove(&ByDigit, row, key),
        Step::Dedup(row) => table.dedup(&ByDigit, row),
        Step::Claim(row) => table.claim(&ByDigit, row),
        Step::Copy(from, to) => table.copy_row(from, to),
    }
}

// What a row answers: its length, its flag, and what A and B read.
fn seen(table: &MapTable<u8>, row: usize) -> (Option<usize>, Option<bool>, Option<u8>, Option<u8>) {
    (
        table.row_len(row),
        table.row_deduped(row),
        table.get(&ByDigit, row, A),
        table.get(&ByDigit, row, B),
    )
}

// Each step is taken or refused as it says, and an edit of a row leaves its neighbours.
#[test]
fn rows(rt: HostRuntime) -> Result<(), Fail> {
    let mut table = MapTable::new(rt.alloc(), 3, 3, 0u8)?;
    let steps = [
        (Step::Insert(0, A, 1), false),
        (Step::Add, true),
        (Step::Add, true),
        (Step::Add, true),
        (Step::Add, false),
        (Step::Insert(0, A, 1), true),
        (Step::Insert(0, B, 2), true),
        (Step::Claim(0), true),
        (Step::Insert(0, A_AGAIN, 3), true),
        (Step::Insert(0, A, 4), false),
        (Step::Claim(0), false),
        (Step::Copy(0, 1), true),
        (Step::Copy(0, 2), true),
        (Step::Copy(0, 3), false),
        (Step::Dedup(1), true),
        (Step::Remove(2, A), true),
        (Step::Dedup(3), false),
    ];
    for (step, taken) in steps {
        assert_eq!(rt; play(&mut table, step).is_ok(), taken);
    }
    assert_eq!(rt; seen(&table, 0), (Some(3), Some(false), Some(3), Some(2)));
    assert_eq!(rt; seen(&table, 1), (Some(2), Some(true), Some(3), Some(2)));
    assert_eq!(rt; seen(&table, 2), (Some(1), Some(false), None, Some(2)));
    assert_eq!(rt; seen(&table, 3), (None, None, None, None));
    Ok(())
}

// A row has between 1 and 64 places, and takes as many entries.
#[test]
fn strides(rt: HostRuntime) -> Result<(), Fail> {
    for stride in [0, 65] {
        assert!(rt; !stride_fits(stride));
        assert!(rt; MapTable::new(rt.alloc(), stride, 1, 0u8).is_err());
    }
    for stride in [1, 64] {
        assert!(rt; stride_fits(stride));
        let mut table = MapTable::new(rt.alloc(), stride, 1, 0u8)?;
        let _ = play(&mut table, Step::Add);
        for _ in 0..stride {
            assert!(rt; play(&mut table, Step::Insert(0, A, 1)).is_ok());
        }
        assert!(rt; play(&mut table, Step::Insert(0, A, 1)).is_err());
    }
    Ok(())
}

// Of a = 1, b = 2, a = 3 a dedup leaves a = 3, b = 2.
#[test]
fn last_wins(rt: HostRuntime) {
    let mut places = [Entry { key: A, value: 0u8 }; 3];
    let mut map = VecMap::new(&mut places);
    for (key, value) in [(A, 1), (B, 2), (A_AGAIN, 3)] {
        assert!(rt; map.insert(key, value).is_ok());
    }
    map.dedup(&ByDigit);
    for (i, value) in [(0, Some(3)), (1, Some(2)), (2, None)] {
        assert_eq!(rt; value_at(&map, i), value);
    }
    assert!(rt; map.is_deduped());
    let row = Row::from(map.view());
    assert_eq!(rt; (row.len, row.deduped), (2, true));
}

fn value_at(map: &VecMap<'_, Text, u8>, i: usize) -> Option<u8> {
    map.entry(i).map(|entry| entry.value)
}
