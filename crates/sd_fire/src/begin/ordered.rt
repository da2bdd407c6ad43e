ghost use Rattle.std.specs.Prelude.{◌≡◌, IfOk};
ghost use Rattle.sd_order.specs.table.Told.{told};

use sd_list::NoMemory;
use sd_order::Order;
use std::alloc::Global;

/// The same order once more.
pub(crate) fn copied(alloc: Global, order: &Order) -> Result<Order, NoMemory>
    ensures { IfOk result (λ copy. told copy ≡ told order.now) }
{
    let table = order.table.as_slice().to_vec(alloc)?;
    Ok(Order {
        count: order.count,
        table,
    })
}
