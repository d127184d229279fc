// The call for a tour of stops, as include/polgamir.h declares it.
ghost use Rattle.stops.specs.Promise.{TourPromise};
ghost use Rattle.stops.specs.Rows.{row_stops};
ghost use Rattle.layout.specs.Tours.{settings_of};

use layout::tours::PolgamirTour;
use model::{Stop, TourAnswer};
use stops::{StopRow, stop_row};

// Plans the legs of a tour, from its start over each stop in order, and writes each stop's
// arrival, counted from the tour's start, into the lent list. Gives back number 0 with the
// tour's mask and its total; or the number of the first refusal, with the place, mask and
// arrival that it names and 0 for those that it does not, and then nothing is written. No stops
// give total 0, and nothing else is read.
#[unsafe(no_mangle)]
pub extern "C" fn polgamir_plan_tour(
    tour: PolgamirTour,
    stops: &[Stop],
    arrivals: &mut [u32],
) -> TourAnswer
    ensures { TourPromise (settings_of tour) stops.now arrivals.old result arrivals.new }
{
    let row = stop_row(stops);
    tour_by_value(tour, row, arrivals)
}

// The same for stops by value. The stops are looked at first: where there is
// none, no field of the tour is read.
fn tour_by_value(tour: PolgamirTour, row: StopRow, arrivals: &mut [u32]) -> TourAnswer
    ensures { TourPromise (settings_of tour) (row_stops row) arrivals.old result arrivals.new }
{
    if row.lent == 0 {
        return TourAnswer {
            number: 0,
            place: 0,
            mask: 0,
            arrival: 0,
            total: 0,
        };
    }
    tour::tour_of_row(tour.into(), row, arrivals)
}
