// One read edge more, in a row that is lent by a mutable reference.
ghost use Rattle.resolution.specs.Row.{Added};

use crate::configuration;
use crate::row::Row;

// One read row lent by a mutable reference: it gets position j. From 512 on there is none, and the row stays as it is.
pub fn add_read(row: &mut Row, j: usize)
    ensures { Added row.old.words j row.new.words }
{
    configuration::add_read(&mut row.words, j);
}
