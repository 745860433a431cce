mod faulty;
mod mem_bus;
