//! Laws over the definitions of this crate. Each is a function without arguments whose contract is the law.

ghost use Rattle.std.specs.Prelude.{◌≡◌, ◌↔◌, ◌<◌, ◌||◌, ℕ, true, map};
ghost use Rattle.std.specs.List.{range_with_len};
ghost use Rattle.dd_blocks.specs.declared.grid.Grid.{Grid};
ghost use Rattle.dd_blocks.specs.declared.plan.Plan.{Plan};
ghost use Rattle.dd_blocks.specs.declared.task_row.TaskRow.{TaskRow};
ghost use Rattle.dd_blocks.specs.Elements.{Element, UsesElement, WritesElement, task_reads, task_writes};
ghost use Rattle.dd_blocks.specs.Grids.{IsGrid, block_count, block_of, block_size, element_count, place_in_block, pos_of};
ghost use Rattle.dd_blocks.specs.Layout.{IsLaidOut, elements_in};
ghost use Rattle.dd_blocks.specs.Numbered.{IsNumberIn, block_row};
ghost use Rattle.dd_blocks.specs.PlanElements.{IsElement, block_of_element, element_of, elements, number_of, place_of_element};

/// Each position of an array has a place in a block, and that place has the position.
pub fn place_of_position()
    ensures { (g : Grid) (pos : ℕ) → IsGrid g → pos < element_count g
        → (block_of g pos < block_count g)
        × (place_in_block g pos < block_size g (block_of g pos))
        × (pos_of g (block_of g pos) (place_in_block g pos) ≡ pos) }
{}

/// Each place in a block has a position of the array, which is in that block and has that place.
pub fn position_of_place()
    ensures { (g : Grid) (block place : ℕ) → IsGrid g → block < block_count g → place < block_size g block
        → (pos_of g block place < element_count g)
        × (block_of g (pos_of g block place) ≡ block)
        × (place_in_block g (pos_of g block place) ≡ place) }
{}

/// The elements of all arrays are numbered as they stand, one array after the other.
pub fn elements_are_numbered()
    ensures { (plan : Plan) → IsLaidOut plan → map (number_of plan) (elements plan) ≡ range_with_len 0 (elements_in plan.arrays) }
{}

/// Each element of a Plan has a place in a block, and that place has the element.
pub fn place_of_element()
    ensures { (plan : Plan) (e : Element) → IsLaidOut plan → IsElement plan e
        → IsNumberIn plan.blocks (block_of_element plan e)
        × (place_of_element plan e < (block_row plan (block_of_element plan e)).size)
        × (element_of plan (block_of_element plan e) (place_of_element plan e) ≡ e) }
{}

/// Each place in a block of a Plan has an element, which is in that block and has that place.
pub fn element_of_place()
    ensures { (plan : Plan) (block place : ℕ) → IsLaidOut plan → IsNumberIn plan.blocks block → place < (block_row plan block).size
        → IsElement plan (element_of plan block place)
        × (block_of_element plan (element_of plan block place) ≡ block)
        × (place_of_element plan (element_of plan block place) ≡ place) }
{}

/// The tests for what a task writes and uses say what the facts say.
pub fn tests_are_facts()
    ensures { (task : TaskRow) (e : Element)
        → ((task_writes task e ≡ true) ↔ WritesElement task e.array e.pos)
        × (((task_reads task e || task_writes task e) ≡ true) ↔ UsesElement task e.array e.pos) }
{}
