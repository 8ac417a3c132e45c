// A problem read from text into lent lists, judged as polishing judges it. No entry: crate mittenschist hands it on.
#![tactic(auto)]

ghost use Rattle.std.specs.Prelude.{◌≡◌, [], ◌∷◌, ◌≤◌, length};
ghost use Rattle.theory.specs.Numbers.{judged};
ghost use Rattle.theory.specs.Refusals.{refusal, room};
ghost use Rattle.problem_calls.specs.Problems.{ReadReply, put_before};
ghost use Rattle.problem_reading.specs.Handing.{HandedOver, Roomy, Copied, headed};

use text_question::Header;
use theory::Refusal;

// The numbers of a problem into the first places of a result.
fn put_numbers(header: Header, stops: usize, res: &mut [u64])
    requires { 6 ≤ length res.old }
    ensures { res.new ≡ put_before (header.k ∷ header.allowance ∷ header.locations ∷ header.depot ∷ header.end ∷ stops ∷ []) res.old }
{
    res[..6].copy_from_slice(&[
        header.k as u64,
        header.allowance as u64,
        header.locations as u64,
        header.depot as u64,
        header.end as u64,
        stops as u64,
    ]);
}

// Lists into the first places of lent ones.
fn copy_lists(
    legs: &[u32],
    latest: &[u32],
    service: &[u32],
    stops: &[u32],
    to_legs: &mut [u32],
    to_latest: &mut [u32],
    to_service: &mut [u32],
    to_route: &mut [u32],
)
    requires { Roomy legs.now latest.now service.now stops.now to_legs.old to_latest.old to_service.old to_route.old }
    ensures { Copied legs.now latest.now service.now stops.now to_legs.old to_latest.old to_service.old to_route.old to_legs.new to_latest.new to_service.new to_route.new }
{
    to_legs[..legs.len()].copy_from_slice(legs);
    to_latest[..latest.len()].copy_from_slice(latest);
    to_service[..service.len()].copy_from_slice(service);
    to_route[..stops.len()].copy_from_slice(stops);
}

// Room for each list and for the numbers.
#[tactic(auto, using(theory::proofs::Checks::judging), unfolding(theory::specs::Refusals::refusal))]
fn rooms_refusal(
    cells: usize,
    locations: usize,
    services: usize,
    stops: usize,
    legs: usize,
    latest: usize,
    service: usize,
    route: usize,
    res: usize,
) -> Result<(), Refusal>
    ensures { judged result ≡ refusal (room cells legs ∷ room locations latest ∷ room services service ∷ room stops route ∷ room 6 res ∷ []) }
{
    refusals::check_room(cells, legs)?;
    refusals::check_room(locations, latest)?;
    refusals::check_room(services, service)?;
    refusals::check_room(stops, route)?;
    refusals::check_room(6, res)
}

// A problem that was judged, into the lent lists, if there is room.
fn hand_over(
    header: Header,
    from_legs: &[u32],
    from_latest: &[u32],
    from_service: &[u32],
    from_stops: &[u32],
    legs: &mut [u32],
    latest: &mut [u32],
    service: &mut [u32],
    route: &mut [u32],
    res: &mut [u64],
) -> Result<(), Refusal>
    ensures { HandedOver (headed header from_legs.now from_latest.now from_service.now from_stops.now) legs.old latest.old service.old route.old res.old (judged result) legs.new latest.new service.new route.new res.new }
{
    let stops = from_stops.len();
    rooms_refusal(
        from_legs.len(),
        from_latest.len(),
        from_service.len(),
        stops,
        legs.len(),
        latest.len(),
        service.len(),
        route.len(),
        res.len(),
    )?;
    copy_lists(
        from_legs,
        from_latest,
        from_service,
        from_stops,
        legs,
        latest,
        service,
        route,
    );
    put_numbers(header, stops, res);
    Ok(())
}

// A text's problem into lent lists and a result: k, allowance, locations, depot, end and number of stops. Refuses 10, 1, 3, 23, 4, 24, 5, 21.
pub fn read_problem(
    text: &[u8],
    legs: &mut [u32],
    latest: &mut [u32],
    service: &mut [u32],
    route: &mut [u32],
    res: &mut [u64],
) -> Result<(), Refusal>
    ensures { ReadReply text.now legs.old latest.old service.old route.old res.old (judged result) legs.new latest.new service.new route.new res.new }
{
    let mut own_legs = [0u32; 9216];
    let mut own_latest = [0u32; 96];
    let mut own_service = [0u32; 96];
    let mut own_stops = [0u32; 512];
    let problem = text_problem::read_problem(
        text,
        &mut own_legs,
        &mut own_latest,
        &mut own_service,
        &mut own_stops,
    )?;
    let locations = problem.header.locations;
    let cells = locations * locations;
    hand_over(
        problem.header,
        &own_legs[..cells],
        &own_latest[..locations],
        &own_service[..locations],
        &own_stops[..problem.count],
        legs,
        latest,
        service,
        route,
        res,
    )
}
