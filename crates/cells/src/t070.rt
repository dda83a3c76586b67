// Table 70: HPKODE, PRKODE, HPANPR, GPKODE, PRANGP, HPANGP.
ghost use Rattle.guideline.specs.declared.rows.TableName.TheVariants.{T070};
ghost use Rattle.guideline.specs.Rows.{width, read_row, keyed};
ghost use Rattle.cells.specs.Lents.{key_at};
ghost use Rattle.cells.specs.Keyed.{keyed_read};
ghost use Rattle.std.proofs.Common.{rules};

use crate::row::TableRow;
use guideline::rows::Row070;
use guideline::view::View;

impl TableRow for Row070 {
    ghost read = { read_row T070 };

    ghost keyed = { keyed T070 };

    ghost WIDTH = { width T070 };

    ghost KEY = { key_at T070 };

    const WIDTH: usize = 6;

    // HPKODE.
    const KEY: usize = 0;

    fn row(t: &[u8], v: View, row: usize) -> Row070 {
        Row070 {
            hpkode: crate::cell(t, v, row, 0),
            prkode: crate::cell(t, v, row, 1),
            hpanpr: crate::cell(t, v, row, 2),
            gpkode: crate::cell(t, v, row, 3),
            prangp: crate::cell(t, v, row, 4),
            hpangp: crate::cell(t, v, row, 5),
        }
    }

    ghost keyed_read = { keyed_read T070 };

    ghost key_inside = { Prim.search rules };

    ghost width_most = { Prim.search rules };
}
