ghost use Rattle.std.specs.Prelude.{◌≡◌, ◌*◌, ◌≤◌, length};

mod moving;

// The cells of a grid, row after row.
#[derive(Drop)]
pub(crate) struct Grid<'a> {
    width: usize,
    height: usize,
    cells: &'a [u8],
    ghost some_cell: { 1 ≤ width * height },
    ghost few_cells: { width * height ≤ 128 },
    ghost whole: { length cells.now ≡ width * height },
}
