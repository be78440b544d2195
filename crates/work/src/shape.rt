// The rectangles of FILL and BLIT, and where a command's bytes end.
ghost use Rattle.std.specs.Prelude.{◌≡◌, ◌<◌, ◌^◌};
ghost use Rattle.memory.specs.Rectangle.{rectangle_end};
ghost use Rattle.command.specs.Frame.{stride_of};
ghost use Rattle.work.specs.Shape.{is_rectangle, size_of, width_of, height_of, too_narrow, end_of};

use command::frame::{Frame, stride_of};
use command::header::Command;
use command::opcode::Opcode;
use memory::rectangle::Rectangle;

#[tactic(auto, unfolding(crate::specs::Shape::is_rectangle))]
pub fn is_rectangle(opcode: Option<Opcode>) -> bool
    ensures { result ≡ is_rectangle opcode }
{
    (opcode == Some(Opcode::FillRect)) | (opcode == Some(Opcode::Blit))
}

#[tactic(auto, unfolding(crate::specs::Shape::size_of))]
fn size_of(command: Command) -> u32
    ensures { result ≡ size_of command }
{
    if command.opcode == Some(Opcode::FillRect) {
        command.arg1
    } else {
        command.arg2
    }
}

#[tactic(auto, unfolding(crate::specs::Shape::width_of))]
pub fn width(command: Command) -> usize
    ensures { result ≡ width_of command }
{
    (size_of(command) % 0x1_0000) as usize
}

#[tactic(auto, unfolding(crate::specs::Shape::height_of))]
pub fn height(command: Command) -> usize
    ensures { result ≡ height_of command }
{
    (size_of(command) / 0x1_0000 % 0x1_0000) as usize
}

// The stride is the frame's.
pub fn rectangle(command: Command, frame: Option<Frame>) -> Rectangle
    ensures { (result.stride ≡ stride_of frame) × (result.width ≡ width_of command) × (result.height ≡ height_of command) }
{
    Rectangle {
        stride: stride_of(frame) as usize,
        width: width(command),
        height: height(command),
    }
}

// No frame, or one too narrow for a rectangle that has pixels.
#[tactic(auto, unfolding(crate::specs::Shape::too_narrow))]
pub fn too_narrow(frame: Option<Frame>, width: usize, height: usize) -> bool
    requires { width < 2 ^ 16 }
    ensures { result ≡ too_narrow frame width height }
{
    match frame {
        None => true,
        Some(frame) => {
            let has_pixels = (width != 0) & (height != 0);
            has_pixels & ((frame.stride as usize) < 4 * width)
        }
    }
}

#[tactic(auto, unfolding(memory::specs::Rectangle::rectangle_end))]
fn rectangle_end(address: usize, rectangle: Rectangle) -> usize
    requires { (address < 2 ^ 32) × (rectangle.stride < 2 ^ 32) × (rectangle.width < 2 ^ 16) × (rectangle.height < 2 ^ 16) }
    ensures { result ≡ rectangle_end address rectangle.stride rectangle.width rectangle.height }
{
    if (rectangle.width == 0) | (rectangle.height == 0) {
        return 0;
    }
    address + (rectangle.height - 1) * rectangle.stride + 4 * rectangle.width
}

// Where the bytes at an address end.
#[tactic(auto, using(crate::proofs::RectangleBounds::width_fits, crate::proofs::RectangleBounds::height_fits), unfolding(crate::specs::Shape::end_of))]
pub fn end_of(command: Command, frame: Option<Frame>, address: u32) -> usize
    ensures { result ≡ end_of command frame address }
{
    if is_rectangle(command.opcode) {
        rectangle_end(address as usize, rectangle(command, frame))
    } else {
        address as usize + 4 * command.len as usize
    }
}
