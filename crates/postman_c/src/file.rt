// Reading and writing plan files, distances, judging, and the number of trees.
ghost use Rattle.std.specs.Prelude.{◌≡◌, length};
ghost use Rattle.postman.specs.PlanFile.{read_answer, write_answer, bytes_after};
ghost use Rattle.encoding.specs.RecordBytes.{arcs_in};
ghost use Rattle.answers.specs.Number.{one_number};
ghost use Rattle.file_exports.specs.Codec.{lent_after, lent_plan};
ghost use Rattle.answers.specs.FileNumber.{packed};
ghost use Rattle.postman.specs.DistanceCall.{distance_answer, distances_after};
ghost use Rattle.postman.specs.Judge.{judge_answer};
ghost use Rattle.postman.specs.TreeCount.{count_call};
ghost use Rattle.answers.specs.Count.{count_of};

#[unsafe(no_mangle)]
pub extern "C" fn postman_read_plan(plan: &[u8], records: &mut [u8]) -> i64
    ensures { (result ≡ one_number (packed (read_answer plan.now (arcs_in records.old))))
        × (records.new ≡ lent_after plan.now records.old) }
{
    file_exports::codec::postman_read_plan(plan, records)
}

#[unsafe(no_mangle)]
pub extern "C" fn postman_write_plan(edition: u32, n: u32, records: &[u8], bytes: &mut [u8]) -> i64
    ensures { (result ≡ one_number (write_answer edition (lent_plan n records.now) bytes.old))
        × (bytes.new ≡ bytes_after edition (lent_plan n records.now) bytes.old) }
{
    file_exports::codec::postman_write_plan(edition, n, records, bytes)
}

#[unsafe(no_mangle)]
pub extern "C" fn postman_distances(plan: &[u8], pairs: &[u16], distances: &mut [u32]) -> i64
    ensures { (result ≡ one_number (distance_answer plan.now pairs.now (length distances.old)))
        × (distances.new ≡ distances_after plan.now pairs.now distances.old) }
{
    file_exports::distance::postman_distances(plan, pairs, distances)
}

#[unsafe(no_mangle)]
pub extern "C" fn postman_judge(plan: &[u8], places: &[u16]) -> i64
    ensures { result ≡ one_number (judge_answer plan.now places.now) }
{
    file_exports::judging::postman_judge(plan, places)
}

#[unsafe(no_mangle)]
pub extern "C" fn postman_tree_count(plan: &[u8]) -> i64
    ensures { result ≡ one_number (count_of (count_call plan.now)) }
{
    file_exports::count::postman_tree_count(plan)
}
