// The public calls for C: a refusal is told by its number; bytes written, SELECTs, the offset of an offending byte and an element
// found through references. An offset is 0 unless a refusal tells it.
//
// Each calls its namesake in the crate `ses`; include/ses.h declares them.
#![tactic(auto)]

ghost use Rattle.promises.specs.PromisesForC.{CheckForC, WriteConfigurationForC, WriteStatusForC, WriteThresholdsForC, WriteDescriptorsForC, ReadConfigurationForC, ReadStatusForC, ReadThresholdsForC, ReadDescriptorsForC, RewriteConfigurationForC, RewriteStatusForC, RewriteThresholdsForC, RewriteDescriptorsForC, ApplyControlForC, ApplyThresholdsForC, EmptyCollectorForC, PutChunkForC, EndPageForC, BuildControlForC, FindNameForC, SetNameForC, SetOverallNameForC};

use build_page::built::Built;
use names::finding;
use shelf::limits;

#[unsafe(no_mangle)]
pub extern "C" fn ses_check(shelf: &[u8]) -> u8
    ensures { CheckForC shelf.now result }
{
    refusals::number(ses::check(shelf))
}

#[unsafe(no_mangle)]
pub extern "C" fn ses_write_configuration(shelf: &[u8], out: &mut [u8], written: &mut u32) -> u8
    ensures { WriteConfigurationForC shelf.now out.old result out.new written.new }
{
    let answer = ses::write_configuration(shelf, out);
    *written = answer.unwrap_or(0);
    refusals::number(answer)
}

#[unsafe(no_mangle)]
pub extern "C" fn ses_write_status(shelf: &[u8], out: &mut [u8], written: &mut u32) -> u8
    ensures { WriteStatusForC shelf.now out.old result out.new written.new }
{
    let answer = ses::write_status(shelf, out);
    *written = answer.unwrap_or(0);
    refusals::number(answer)
}

#[unsafe(no_mangle)]
pub extern "C" fn ses_write_thresholds(shelf: &[u8], out: &mut [u8], written: &mut u32) -> u8
    ensures { WriteThresholdsForC shelf.now out.old result out.new written.new }
{
    let answer = ses::write_thresholds(shelf, out);
    *written = answer.unwrap_or(0);
    refusals::number(answer)
}

#[unsafe(no_mangle)]
pub extern "C" fn ses_write_descriptors(shelf: &[u8], out: &mut [u8], written: &mut u32) -> u8
    ensures { WriteDescriptorsForC shelf.now out.old result out.new written.new }
{
    let answer = ses::write_descriptors(shelf, out);
    *written = answer.unwrap_or(0);
    refusals::number(answer)
}

#[unsafe(no_mangle)]
pub extern "C" fn ses_read_configuration(
    page: &[u8],
    configuration: &mut [u8; limits::CONFIGURATION],
    offset: &mut u32,
) -> u8
    ensures { ReadConfigurationForC page.now configuration.old result configuration.new offset.new }
{
    *offset = 0;
    refusals::tell(ses::read_configuration(page, configuration), offset)
}

#[unsafe(no_mangle)]
pub extern "C" fn ses_read_status(
    configuration: &[u8],
    page: &[u8],
    fields: &mut [u8; status_record::LENGTH],
    offset: &mut u32,
) -> u8
    ensures { ReadStatusForC configuration.now page.now fields.old result fields.new offset.new }
{
    *offset = 0;
    refusals::tell(ses::read_status(configuration, page, fields), offset)
}

#[unsafe(no_mangle)]
pub extern "C" fn ses_read_thresholds(
    configuration: &[u8],
    page: &[u8],
    fields: &mut [u8; threshold_record::reading::LENGTH],
    offset: &mut u32,
) -> u8
    ensures { ReadThresholdsForC configuration.now page.now fields.old result fields.new offset.new }
{
    *offset = 0;
    refusals::tell(ses::read_thresholds(configuration, page, fields), offset)
}

#[unsafe(no_mangle)]
pub extern "C" fn ses_read_descriptors(
    configuration: &[u8],
    page: &[u8],
    fields: &mut [u8; descriptor_record::reading::LENGTH],
    offset: &mut u32,
) -> u8
    ensures { ReadDescriptorsForC configuration.now page.now fields.old result fields.new offset.new }
{
    *offset = 0;
    refusals::tell(ses::read_descriptors(configuration, page, fields), offset)
}

#[unsafe(no_mangle)]
pub extern "C" fn ses_rewrite_configuration(
    configuration: &[u8],
    out: &mut [u8],
    written: &mut u32,
) -> u8
    ensures { RewriteConfigurationForC configuration.now out.old result out.new written.new }
{
    let answer = ses::rewrite_configuration(configuration, out);
    *written = answer.unwrap_or(0);
    refusals::number(answer)
}

#[unsafe(no_mangle)]
pub extern "C" fn ses_rewrite_status(
    configuration: &[u8],
    fields: &[u8; status_record::LENGTH],
    out: &mut [u8],
    written: &mut u32,
) -> u8
    ensures { RewriteStatusForC configuration.now fields.now out.old result out.new written.new }
{
    let answer = ses::rewrite_status(configuration, fields, out);
    *written = answer.unwrap_or(0);
    refusals::number(answer)
}

#[unsafe(no_mangle)]
pub extern "C" fn ses_rewrite_thresholds(
    configuration: &[u8],
    fields: &[u8; threshold_record::reading::LENGTH],
    out: &mut [u8],
    written: &mut u32,
) -> u8
    ensures { RewriteThresholdsForC configuration.now fields.now out.old result out.new written.new }
{
    let answer = ses::rewrite_thresholds(configuration, fields, out);
    *written = answer.unwrap_or(0);
    refusals::number(answer)
}

#[unsafe(no_mangle)]
pub extern "C" fn ses_rewrite_descriptors(
    configuration: &[u8],
    fields: &[u8; descriptor_record::reading::LENGTH],
    out: &mut [u8],
    written: &mut u32,
) -> u8
    ensures { RewriteDescriptorsForC configuration.now fields.now out.old result out.new written.new }
{
    let answer = ses::rewrite_descriptors(configuration, fields, out);
    *written = answer.unwrap_or(0);
    refusals::number(answer)
}

#[unsafe(no_mangle)]
pub extern "C" fn ses_apply_control(shelf: &mut [u8], page: &[u8], offset: &mut u32) -> u8
    ensures { ApplyControlForC shelf.old page.now result shelf.new offset.new }
{
    *offset = 0;
    refusals::tell(ses::apply_control(shelf, page), offset)
}

#[unsafe(no_mangle)]
pub extern "C" fn ses_apply_thresholds(shelf: &mut [u8], page: &[u8], offset: &mut u32) -> u8
    ensures { ApplyThresholdsForC shelf.old page.now result shelf.new offset.new }
{
    *offset = 0;
    refusals::tell(ses::apply_thresholds(shelf, page), offset)
}

#[unsafe(no_mangle)]
pub extern "C" fn ses_empty_collector(collector: &mut [u8; collector::LENGTH])
    ensures { EmptyCollectorForC collector.old collector.new }
{
    ses::empty_collector(collector);
}

#[unsafe(no_mangle)]
pub extern "C" fn ses_put_chunk(collector: &mut [u8; collector::LENGTH], chunk: &[u8])
    ensures { PutChunkForC collector.old chunk.now collector.new }
{
    ses::put_chunk(collector, chunk);
}

#[unsafe(no_mangle)]
pub extern "C" fn ses_end_page(
    collector: &mut [u8; collector::LENGTH],
    shelf: &mut [u8],
    code: u8,
    offset: &mut u32,
) -> u8
    ensures { EndPageForC collector.old shelf.old code result collector.new shelf.new offset.new }
{
    *offset = 0;
    refusals::tell(ses::end_page(collector, shelf, code), offset)
}

#[unsafe(no_mangle)]
pub extern "C" fn ses_build_control(
    shelf: &[u8],
    wanted: &[u8],
    out: &mut [u8],
    written: &mut u32,
    selects: &mut u32,
) -> u8
    ensures { BuildControlForC shelf.now wanted.now out.old result out.new written.new selects.new }
{
    let built = ses::build_control(shelf, wanted, out);
    let told = built.unwrap_or(Built::NOTHING);
    *written = told.bytes;
    *selects = told.selects;
    refusals::number(built)
}

#[unsafe(no_mangle)]
pub extern "C" fn ses_find_name(shelf: &[u8], text: &[u8], element: &mut u32) -> u8
    ensures { FindNameForC shelf.now text.now result element.new }
{
    let found = ses::find_name(shelf, text);
    *element = finding::element(found);
    refusals::number(found)
}

#[unsafe(no_mangle)]
pub extern "C" fn ses_set_name(shelf: &mut [u8], element: u32, text: &[u8]) -> u8
    ensures { SetNameForC shelf.old element text.now result shelf.new }
{
    refusals::number(ses::set_name(shelf, element, text))
}

#[unsafe(no_mangle)]
pub extern "C" fn ses_set_overall_name(shelf: &mut [u8], number: u32, text: &[u8]) -> u8
    ensures { SetOverallNameForC shelf.old number text.now result shelf.new }
{
    refusals::number(ses::set_overall_name(shelf, number, text))
}
