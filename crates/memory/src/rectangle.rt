// Rectangles of pixels of one color. A pixel is one word; pixel (x, y) lies at address + y·stride + 4·x.
ghost use Rattle.std.specs.Prelude.{◌≡◌, ◌+◌, ◌*◌, ◌≤◌, length};
ghost use Rattle.memory.specs.Rectangle.{rectangle_end, words_put, filled};

use crate::place::put_word;

// The stride counts bytes, from a row's start to the next row's; width and height count pixels.
#[derive(Clone, Copy, Debug, PartialEq, Eq)]
pub struct Rectangle {
    pub stride: usize,
    pub width: usize,
    pub height: usize,
}

fn fill_row(window: &mut [u8], address: usize, width: usize, color: u32)
    requires { address + 4 * width ≤ length window.old }
    ensures { window.new ≡ words_put address width (λ x. color) window.old }
{
    for x in 0..width {
        put_word(window, address + 4 * x, color);
    }
}

#[tactic(auto, unfolding(crate::specs::Rectangle::filled))]
pub fn fill(window: &mut [u8], address: usize, rectangle: Rectangle, color: u32)
    requires { rectangle_end address rectangle.stride rectangle.width rectangle.height ≤ length window.old }
    ensures { window.new ≡ filled address rectangle.stride rectangle.width rectangle.height color window.old }
{
    if rectangle.width == 0 {
        return;
    }
    for y in 0..rectangle.height {
        let row = y * rectangle.stride;
        fill_row(window, address + row, rectangle.width, color);
    }
}
