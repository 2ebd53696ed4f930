//! Passes that count references for the boxes which a list has: they go online, and see the name of a box anew each time.
ghost use Rattle.std.specs.Prelude.{IfSome};
ghost use Rattle.ft_trace.specs.SeenBoxes.{SawBox};
ghost use Rattle.ft_bank.specs.BoxSteps.{box_id, IsBoxIn};
ghost use Rattle.ft_bank.specs.Passes.{shape_of, view};
ghost use Rattle.ft_boxes_tests.specs.Counters.{HasOneList, IsCaller, IsCounter};

use crate::seeing::see_name;
use crate::storing::is_list;
use ft_bank::{Bank, Pass};
use ft_layout::Ref;
use ft_qsbr::enter;

/// Goes online, so that the pass may look at items without their lock.
pub fn go_online(bank: &Bank, pass: &mut Pass)
    requires { IsCaller bank.now pass.old }
    ensures { IsCounter bank.now pass.new }
{
    enter(bank, pass);
}

/// The box that an item of the list has, if it has one and nobody wrote the item in between.
pub fn find_box(bank: &Bank, pass: &mut Pass, index: u32) -> Option<Ref>
    requires list { HasOneList bank.now }
    requires counter { IsCounter bank.now pass.old }
    ensures counter { IsCounter bank.now pass.new }
    ensures name { IfSome result (IsBoxIn (shape_of bank.now)) }
    ensures saw { IfSome result (λ b. SawBox (shape_of bank.now) (box_id b) (view pass.new).log) }
{
    is_list(bank);
    see_name(bank, pass, 0, u64::from(index))
}
