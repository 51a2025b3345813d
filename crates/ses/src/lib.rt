// The public calls. Each takes whatever bytes it is given, and answers with a value or with one refusal.
//
// The crate `ses_c` has the same calls for C.
#![tactic(auto)]

ghost use Rattle.promises.specs.Promises.{Check, WriteConfiguration, WriteStatus, WriteThresholds, WriteDescriptors, ReadConfiguration, ReadStatus, ReadThresholds, ReadDescriptors, RewriteConfiguration, RewriteStatus, RewriteThresholds, RewriteDescriptors, ApplyControl, ApplyThresholds, EmptyCollector, PutChunk, EndPage, BuildControl, FindName, SetName, SetOverallName};

use build_page::built::Built;
use page::testing;
use refusals::{PageRefusal, Refusal};
use shelf::limits;

// Is this block a well-formed shelf?
pub fn check(shelf: &[u8]) -> Result<(), Refusal>
    ensures { Check shelf.now result }
{
    testing::shelf(shelf)
}

pub fn write_configuration(shelf: &[u8], out: &mut [u8]) -> Result<u32, Refusal>
    ensures { WriteConfiguration shelf.now out.old result out.new }
{
    let tested = testing::shelf_slots(shelf);
    let Ok(_) = tested else {
        return tested.and(Ok(0));
    };
    configuration_page::writing::write(shelf, out)
}

pub fn write_status(shelf: &[u8], out: &mut [u8]) -> Result<u32, Refusal>
    ensures { WriteStatus shelf.now out.old result out.new }
{
    status_page::writing::write(shelf, out)
}

pub fn write_thresholds(shelf: &[u8], out: &mut [u8]) -> Result<u32, Refusal>
    ensures { WriteThresholds shelf.now out.old result out.new }
{
    threshold_page_in::writing::write(shelf, out)
}

// The names, on the Element Descriptor page.
pub fn write_descriptors(shelf: &[u8], out: &mut [u8]) -> Result<u32, Refusal>
    ensures { WriteDescriptors shelf.now out.old result out.new }
{
    descriptor_page::writing::write_shelf(shelf, out)
}

pub fn read_configuration(
    page: &[u8],
    configuration: &mut [u8; limits::CONFIGURATION],
) -> Result<(), PageRefusal>
    ensures { ReadConfiguration page.now configuration.old result configuration.new }
{
    configuration_page::reading::read(page, configuration)
}

pub fn read_status(
    configuration: &[u8],
    page: &[u8],
    fields: &mut [u8; status_record::LENGTH],
) -> Result<(), PageRefusal>
    ensures { ReadStatus configuration.now page.now fields.old result fields.new }
{
    status_reading::reading::read(configuration, page, fields)
}

pub fn read_thresholds(
    configuration: &[u8],
    page: &[u8],
    fields: &mut [u8; threshold_record::reading::LENGTH],
) -> Result<(), PageRefusal>
    ensures { ReadThresholds configuration.now page.now fields.old result fields.new }
{
    threshold_record::reading::read(configuration, page, fields)
}

pub fn read_descriptors(
    configuration: &[u8],
    page: &[u8],
    fields: &mut [u8; descriptor_record::reading::LENGTH],
) -> Result<(), PageRefusal>
    ensures { ReadDescriptors configuration.now page.now fields.old result fields.new }
{
    descriptor_record::reading::read(configuration, page, fields)
}

// The `rewrite` calls write again what a reader handed back.
pub fn rewrite_configuration(configuration: &[u8], out: &mut [u8]) -> Result<u32, Refusal>
    ensures { RewriteConfiguration configuration.now out.old result out.new }
{
    let tested = testing::configuration_slots(configuration);
    let Ok(_) = tested else {
        return tested.and(Ok(0));
    };
    configuration_page::writing::write(configuration, out)
}

pub fn rewrite_status(
    configuration: &[u8],
    fields: &[u8; status_record::LENGTH],
    out: &mut [u8],
) -> Result<u32, Refusal>
    ensures { RewriteStatus configuration.now fields.now out.old result out.new }
{
    status_rewritten::write(configuration, fields, out)
}

pub fn rewrite_thresholds(
    configuration: &[u8],
    fields: &[u8; threshold_record::reading::LENGTH],
    out: &mut [u8],
) -> Result<u32, Refusal>
    ensures { RewriteThresholds configuration.now fields.now out.old result out.new }
{
    threshold_record::rewriting::write(configuration, fields, out)
}

pub fn rewrite_descriptors(
    configuration: &[u8],
    fields: &[u8; descriptor_record::reading::LENGTH],
    out: &mut [u8],
) -> Result<u32, Refusal>
    ensures { RewriteDescriptors configuration.now fields.now out.old result out.new }
{
    descriptor_record::rewriting::write(configuration, fields, out)
}

// The `apply` calls act on the shelf in place, and on all of it or nothing.
pub fn apply_control(shelf: &mut [u8], page: &[u8]) -> Result<(), PageRefusal>
    ensures { ApplyControl shelf.old page.now result shelf.new }
{
    control_page::apply(shelf, page)
}

pub fn apply_thresholds(shelf: &mut [u8], page: &[u8]) -> Result<(), PageRefusal>
    ensures { ApplyThresholds shelf.old page.now result shelf.new }
{
    threshold_page_out::apply(shelf, page)
}

// A page for either of them that comes in chunks: it is collected in a block that the caller lends, and acts at its end.
pub fn empty_collector(collector: &mut [u8; collector::LENGTH])
    ensures { EmptyCollector collector.old collector.new }
{
    collector::empty(collector);
}

pub fn put_chunk(collector: &mut [u8; collector::LENGTH], chunk: &[u8])
    ensures { PutChunk collector.old chunk.now collector.new }
{
    collector::put(collector, chunk);
}

// The code is that of the page meant. The collector is ready for the next page afterwards.
pub fn end_page(
    collector: &mut [u8; collector::LENGTH],
    shelf: &mut [u8],
    code: u8,
) -> Result<(), PageRefusal>
    ensures { EndPage collector.old shelf.old code result collector.new shelf.new }
{
    collected_page::end(collector, shelf, code)
}

// The control page that brings the shelf to the wanted settings: four bytes for each element, as the shelf stores them.
pub fn build_control(shelf: &[u8], wanted: &[u8], out: &mut [u8]) -> Result<Built, Refusal>
    ensures { BuildControl shelf.now wanted.now out.old result out.new }
{
    build_page::build(shelf, wanted, out)
}

// The first element with this name.
pub fn find_name(shelf: &[u8], text: &[u8]) -> Result<Option<u32>, Refusal>
    ensures { FindName shelf.now text.now result }
{
    names::finding::find(shelf, text)
}

pub fn set_name(shelf: &mut [u8], element: u32, text: &[u8]) -> Result<(), Refusal>
    ensures { SetName shelf.old element text.now result shelf.new }
{
    names::setting::of_element(shelf, element, text)
}

// The name of the overall element of a type, which is counted from 0 like an element.
pub fn set_overall_name(shelf: &mut [u8], number: u32, text: &[u8]) -> Result<(), Refusal>
    ensures { SetOverallName shelf.old number text.now result shelf.new }
{
    names::setting::of_overall(shelf, number, text)
}
