// What a table keeps of a row.
ghost use Rattle.std.specs.Prelude.{◌≡◌};
ghost use Rattle.map_table.specs.Tables.{row_of};
ghost use Rattle.vec_map.specs.Views.{view_map};

use vec_map::view::MapView;

// How many entries a row has, and whether it is deduped. The flag is of any entries, and not of whether there are some.
#[derive(Clone, Copy, Debug)]
pub struct Row {
    pub len: usize,
    pub deduped: bool,
}

impl<K: Copy, V: Copy> From<MapView<'_, K, V>> for Row {
    ghost from_gives = { λ v r. r ≡ row_of (view_map v) };

    fn from(view: MapView<'_, K, V>) -> Row {
        Row {
            len: view.len(),
            deduped: view.is_deduped(),
        }
    }
}
