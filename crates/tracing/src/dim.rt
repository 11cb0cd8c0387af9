// The constants of a page at zero.
ghost use Rattle.std.specs.Prelude.{◌≡◌, map};
ghost use Rattle.charts.specs.Tracing.{zeroed_source, zeroed};
ghost use Rattle.loading.specs.Models.{page_model, cells_model};

use charts::Source;
use loading::Page;

// Sets each constant of a page to the zero of its type.
pub fn dim_page(page: &mut Page)
    ensures page { page_model page.new ≡ zeroed (page_model page.old) }
    ensures cells { cells_model page.new ≡ cells_model page.old }
{
    for block in page.blocks.iter_mut() {
        dim_pins(&mut block.pins);
    }
}

// Kept as a loop of its own, as those of the layers: a closure for its body would need a longer contract.
fn dim_pins(pins: &mut [Source])
    ensures { pins.new ≡ map zeroed_source pins.old }
{
    for pin in pins.iter_mut() {
        *pin = dim_source(*pin);
    }
}

fn dim_source(source: Source) -> Source
    ensures { result ≡ zeroed_source source }
{
    match source {
        Source::Constant(signal) => Source::Constant(signal.signal_type().zero()),
        _ => source,
    }
}
